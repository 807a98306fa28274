//! Laws of the types of an embedder: that matching is an order, which types bound it, when two types are one, and that
//! a type goes to type data and comes back. Nothing stands on them.
#![tactic(auto)]

pub mod laws;
#[cfg(test)]
mod tests;
