//! Loads and answers of radios: all but the graph of devices is made anew, all memory is taken
//! before, and then interfaces become what they are in one round.
#![tactic(auto)]

mod beginning;
mod gifts;
mod loads;
mod next;
mod radios;
mod rebuild;

pub use dev_graph::Graph;
pub use loads::load;
pub use net_follow::{Follower, GraphSettling, States};
pub use radios::join_ports;
pub use rebuild::Rebuild;
