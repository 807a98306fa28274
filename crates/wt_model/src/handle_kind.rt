//! What the handles of a party stand for.

/// What a handle stands for, as a command needs it.
#[derive(Clone, Copy, Debug, PartialEq, Eq)]
pub enum HandleKind {
    /// A registered type that the party holds.
    Type,
    /// A group that waits for the party's sweep.
    Debt,
    /// The types of a module.
    Module,
}
