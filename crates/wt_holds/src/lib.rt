//! What keeps the registered groups: the holds of parties, which groups are reached, and the removal of what
//! isn't. Nothing here takes memory but a row of counts for a new group.
#![tactic(auto)]

pub mod giving_back;
pub mod hold_counts;
pub mod inner;
pub mod plain;
pub mod removal;
