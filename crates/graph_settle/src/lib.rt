//! What is held and what is wanted of devices, and of the addresses and routes above them, and the
//! settling from the one to the other.
#![tactic(auto)]

mod leave;
mod next;
mod settle;
mod settling;

pub use settling::GraphSettling;
