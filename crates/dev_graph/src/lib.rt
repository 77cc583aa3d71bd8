//! The graph of network devices: names with their devices and claims, what is held and wanted on
//! them, and the calls between.
#![tactic(auto)]

mod adding;
mod graph;
mod judging;
mod own;

pub use graph::{Graph, NotLoaded};
