//! All that is registered: the groups, how many holds the parties have of each, and how much was ever
//! registered.

use crate::hold_counts::HoldCounts;
use wt_keys::entries::RecGroupEntries;
use wt_model::ever::EverRegistered;

/// The registered groups, from the oldest on, with the counts of their holds in the same order.
#[derive(Debug, Drop)]
pub struct TypeRegistryInner {
    pub entries: RecGroupEntries,
    pub counts: Vec<HoldCounts>,
    /// The numbers of groups that are to be removed, for the time of a removal: their room is taken when a group is
    /// registered.
    pub stack: Vec<u64>,
    pub given: EverRegistered,
}
