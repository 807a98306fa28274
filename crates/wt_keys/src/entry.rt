//! What the registry keeps of one registered group.

use crate::supertypes::SupertypeList;
use wt_env::seq::Seq;
use wt_env::types::{VMSharedTypeIndex, WasmRecGroup, WasmSubType};

/// One registered recursion group.
#[derive(Debug, Drop)]
pub struct RecGroupEntry {
    /// Its registration number.
    pub number: u64,
    /// The key by which equal groups are one: references that leave the group are engine indices, its own are places.
    pub hash_consing_key: WasmRecGroup,
    /// The members with every reference as an engine index, as they are shown.
    pub runtime_types: Seq<WasmSubType>,
    /// The registration number and place that each reference names that leaves the group, in order of
    /// occurrence.
    pub outer: Seq<(u64, u32)>,
    /// Of each member that is a function and not its own trampoline, the registration number of its trampoline's
    /// group.
    pub trampolines: Seq<Option<u64>>,
    /// Of each member the indices of its declared supertypes.
    pub supertypes: Seq<SupertypeList>,
    /// The index of each member.
    pub shared_type_indices: Seq<VMSharedTypeIndex>,
}
