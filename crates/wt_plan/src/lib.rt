//! Plans of registrations: which groups are new, with their numbers and indices, and which rule a module breaks first,
//! before anything is changed.
#![tactic(auto)]

pub mod host_plan;
pub mod module_plan;
pub mod plan;
pub mod supertypes;
