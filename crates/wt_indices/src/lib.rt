//! The free type indices, so that the smallest one is at hand without a search.
#![tactic(auto)]

pub mod free_indices;
