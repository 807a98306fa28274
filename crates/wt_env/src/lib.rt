//! The data that every other crate speaks of: core types as data and their texts, the engine and its
//! limits, the statuses of a run, and the streams that bytes come from and go to.
#![tactic(auto)]

pub mod erasure;
pub mod limits;
pub mod memory;
pub mod memory_stream;
pub mod seq;
pub mod show;
pub mod status;
pub mod std_stream;
pub mod stream;
pub mod text;
pub mod types;
