//! What a recursion group is without indices: its description by registration numbers, its tree, and
//! the closed trees of its types; which type declares which as its supertype, and when one may stand for another. The
//! definitions stand in `specs/`; the code never builds a tree.
#![tactic(auto)]

pub mod fit;
pub mod laws;
pub mod map_refs;
pub mod number_function;
pub mod plain_supers;
pub mod refs;
pub mod supers;
pub mod trampoline;
