//! What the core types of an embedder share: the type data of which one is built, how one is registered, how one more hold
//! is made from an index, and how a registered one is read, element by element, in names of its engine. The types
//! themselves stand in the crate above.
#![tactic(auto)]

pub mod core_type;
pub mod iterators;
pub mod sub_types;
#[cfg(test)]
mod tests;
