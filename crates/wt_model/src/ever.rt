//! How much was ever registered.

/// Counts over all groups ever registered.
#[derive(Clone, Copy, Debug)]
pub struct EverRegistered {
    /// Registration numbers, which are never used twice.
    pub numbers: u64,
    /// Types.
    pub types: u64,
    /// References from groups to others, each occurrence counted.
    pub references: u64,
}
