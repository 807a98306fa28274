//! What a registry is, for contracts: the registered groups, their trees and indices, edges and reach, holds,
//! plans, limits, the build checks, what is true of every registry and what each step changes. The code here is
//! the data that these definitions share with it; the proofs are the lemmas over the definitions alone.
#![tactic(auto)]

pub mod ever;
pub mod handle_kind;
pub mod host_exception;
pub mod live;
pub mod refusal;
pub mod swept;
