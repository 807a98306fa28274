//! Whether what is given for an import fits it: functions, globals, tables, memories and tags against what a module
//! expects, and what is told where one doesn't fit. Types are compared by engine indices; nothing here takes memory.
#![tactic(auto)]

pub mod definition;
pub mod known;
pub mod laws;
pub mod matching;
pub mod show;
#[cfg(test)]
mod tests;
pub mod unfit;
