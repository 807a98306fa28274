//! Core types from JSON: which value, reference and field types, and which recursion groups of a module, a JSON value
//! stands for, if any. It rests on what `serde_json` says of a value, and on the type data of `wt_env`.
#![tactic(auto)]

pub mod decode_groups;
pub mod decode_values;
pub mod json;
