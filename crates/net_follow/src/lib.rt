//! The graph of devices, the gifts above it and what interfaces are follow the events of a network
//! one by one, each at the cost of what it touches. All memory is taken before.
#![tactic(auto)]

mod answers;
mod awaiting;
mod devices;
mod follower;
mod following;
mod operator_states;

pub use follower::Follower;
pub use state_requests::{GraphSettling, States, forget_claims};
