//! The names of a graph of devices over their counts: which of them are available, have link and
//! are used.
#![tactic(auto)]

mod counted;
mod edges;
mod laws;
mod loading;
mod nodes;

pub use counted::CountedNames;
pub use edges::{port_edges, row_edges};
pub use laws::{ids_answer_as_their_names, sound_names_are_counted};
pub use nodes::node_rows;
