//! What a sweep answers.

/// What a sweep did.
#[derive(Clone, Copy, Debug, PartialEq, Eq)]
pub enum Swept {
    /// The group waited and was removed: so many groups left the registry.
    Removed(u32),
    /// The group is registered and doesn't wait.
    Kept,
    /// That registration is no longer there.
    Gone,
}
