//! Commands of a session's parties: what each of them asks, the types that a host describes in them, and how a list of
//! them is spelled in JSON. Nothing here knows a registry.
#![tactic(auto)]

pub mod command;
pub mod decode;
mod decode_command;
pub mod decode_engine;
mod decode_host;
pub mod host_type;
