//! The registered groups as they are kept: a list of entries, found by key, by index and by number.
#![tactic(auto)]

pub mod entries;
pub mod entry;
pub mod files;
pub mod marking;
pub mod plain;
pub mod search;
pub mod steps;
pub mod subtyping;
pub mod supertypes;
