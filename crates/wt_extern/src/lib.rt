//! The types of what a module imports and exports: functions, globals, tables, memories and tags, and the same as data.
//! A type that is registered is named by its engine's number and its index, so that nothing here holds anything, and no
//! call takes memory.
#![tactic(auto)]

pub mod entity;
pub mod entity_rules;
pub mod extern_type;
pub mod global_type;
pub mod laws;
pub mod memory_refusal;
pub mod memory_type;
pub mod table_type;
pub mod tag_type;
#[cfg(test)]
mod tests;
