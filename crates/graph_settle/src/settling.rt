ghost use Rattle.std.specs.Prelude.{◌≡◌, [], false};
ghost use Rattle.graph_rules.specs.State as state;
ghost use Rattle.graph_settle.specs.SettlingState.{IsReady};

use dev_graph::Graph;
use given_objects::GivenObjects;
use std::alloc::Global;

/// What is held and what is wanted: on devices by a graph, and of addresses and routes by the table
/// of what is given.
#[derive(Drop)]
pub struct GraphSettling {
    pub graph: Graph,
    pub gifts: GivenObjects,
    /// Whether a name may fall on which something is given.
    pub may_lose_link: bool,
}

impl GraphSettling {
    /// Nothing held and nothing wanted. It takes no memory.
    pub fn new(alloc: Global) -> GraphSettling
        ensures bare { result ≡ record { graph = state.empty; gifts = []; may_lose_link = false } }
        ensures ready { IsReady result }
    {
        GraphSettling {
            graph: Graph::new(alloc),
            gifts: GivenObjects::new(alloc),
            may_lose_link: false,
        }
    }

    /// The graph of devices.
    pub fn graph(&self) -> &Graph
        ensures { result.now ≡ self.now.graph }
    {
        &self.graph
    }
}
