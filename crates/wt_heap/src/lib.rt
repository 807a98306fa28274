//! The value, reference, heap, storage and field types of an embedder: where one matches another, and the same as type
//! data. A type that is registered is named by its engine's number and its index, so that nothing here holds anything,
//! and no call takes memory.
#![tactic(auto)]

pub mod field_type;
pub mod heap_type;
pub mod hierarchy;
pub mod mutability;
pub mod names;
pub mod ref_type;
pub mod show;
pub mod storage_type;
#[cfg(test)]
mod tests;
pub mod val_type;
