//! Touched interfaces follow what happened: what they give and claim, and their requests. None of
//! this takes memory.
#![tactic(auto)]

mod asking;
mod losing;
mod opening;
mod renewing;
mod telling;

pub use net_states::{GraphSettling, States, forget_claims};
pub use renewing::renew;
