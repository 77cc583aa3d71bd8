use dev_graph::Graph;
use known_inputs::KnownInputs;
use net_reach::Reach;

/// The inputs of a network, what reaches what by them, and a graph that agrees with them whatever
/// its claims are.
#[derive(Clone, Copy)]
pub struct Look<'a> {
    pub inputs: &'a KnownInputs,
    pub reach: &'a Reach,
    pub graph: &'a Graph,
}
