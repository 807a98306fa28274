//! Sessions: parties, their handles, their commands and the replies. The modules stand in the order in which a
//! command passes them.
#![tactic(auto)]

pub use wt_commands::{command, host_type};

// A command comes to a session,
pub mod session;
// which finds the handles of the command's party,
mod acting;
pub mod handle;
pub mod party_handles;
// and does what is asked of them: on types, which a host describes over those that the handles name,
mod host;
mod missing_names;
mod type_handles;
// on modules,
mod module_handles;
// and on the types that they name.
mod named_types;
// What was made is counted, and a reply is given.
pub mod counts;
pub mod reply;
// Commands are run in turn.
pub mod run;
// What follows from the contracts.
pub mod laws;
#[cfg(test)]
mod tests;
