//! A registered group as it is told to the outside.

use wt_env::seq::Seq;

/// A registered group: its registration number, and the index of each of its types.
#[derive(Debug, PartialEq, Eq, Drop)]
pub struct LiveGroup {
    pub number: u64,
    pub indices: Seq<u32>,
}
