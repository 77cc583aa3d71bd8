use known_inputs::KnownInputs;
use net_rules::Notice;
use state_requests::{GraphSettling, States};
use std::collections::VecDeque;

/// What is kept of a network, in step with its inputs.
#[derive(Drop)]
pub struct Follower {
    /// The rows, the present devices, operator states, open requests and the next number, with
    /// room.
    pub inputs: KnownInputs,
    /// What the kernel holds and what is wanted: on devices by the graph, addresses and routes by
    /// the gifts above it.
    pub settling: GraphSettling,
    /// What each interface is, and what reaches what.
    pub states: States,
    /// The places of the interfaces that the last event touched, rising, with room for all.
    pub touched: Vec<usize>,
    /// What is still to be told of the last event.
    pub notices: VecDeque<Notice>,
}
