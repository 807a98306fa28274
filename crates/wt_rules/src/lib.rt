//! The rules that the recursion groups of a module keep, and which is broken first. What a type names is looked up by whoever
//! knows the types of indices; nothing here knows of a registry.
#![tactic(auto)]

pub mod host_types;
mod kinds;
pub mod place;
pub mod rules;
pub mod type_rules;
