//! A graph of devices over devices, by numbers: VLANs over their lowers and bridges over their
//! ports.
//!
//! A node has a count of the nodes right under it that are available, a count of those that have
//! link, and its demand: its claims and the used nodes right above it. These counts are exact at
//! every moment. A node whose count moved is stale until it is computed anew. An event computes
//! stale nodes in the order of their ranks, and then stale uses in the other order, so a node that
//! stays as it was costs its neighbours nothing.
#![tactic(auto)]

mod downward;
mod graph;
mod laws;
mod loads;
mod marks;
mod node;
mod nodes;
mod order;
mod settle;
mod steps;
mod topology;
mod upward;
mod uses;

pub use graph::Graph;
pub use laws::{edges_are_of_the_rows, lone_nodes_change_no_edge};
pub use loads::can_load;
pub use node::{Edge, Kind, Row};
pub use steps::Steps;
pub use uses::MarkedIds;
