//! The types that an embedder registers and holds: of functions, structs, arrays, exceptions and continuations. Each is
//! one hold of a registered type; what it is made of is asked of it with the registry beside it, and told by names,
//! which hold nothing.
#![tactic(auto)]

pub use wt_core::iterators;
pub use wt_extern::{extern_type, global_type, memory_refusal, memory_type, table_type, tag_type};

pub mod array_type;
pub mod cont_type;
#[cfg(test)]
mod example;
pub mod exn_type;
pub mod func_type;
pub mod show;
pub mod struct_type;
#[cfg(test)]
mod tests;
