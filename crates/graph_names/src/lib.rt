//! The names of a graph of devices, each once, with its device and its claims. The id of a name is
//! its place.
#![tactic(auto)]

mod kept;
mod names;

pub use kept::kept_names;
pub use names::{Names, Told};
