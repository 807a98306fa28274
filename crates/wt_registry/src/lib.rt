//! The registry of types: which recursion groups an engine has, and the index of each of their types.
//! Equal groups are one group, whoever registers them.
#![tactic(auto)]

pub use wt_keys::steps;
pub use wt_model::{handle_kind, host_exception, live, refusal, swept};
pub use wt_rules::{host_types, place, rules, type_rules};

pub mod collection;
pub mod debt;
mod enter;
pub mod laws;
pub mod registered_type;
pub mod registry;
pub mod subtyping;
mod wanted;
