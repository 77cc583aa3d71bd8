//! What a load brings to a graph of devices beside its rows: further names, and the ports of
//! radios.
#![tactic(auto)]

mod laws;
mod names;
mod ports;

pub use laws::further_names_are_those_that_lack;
pub use names::further_names;
pub use ports::graph_ports;
