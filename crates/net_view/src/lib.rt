//! Which names are available and have link, and which interfaces are up, computed as their
//! definitions say.
#![tactic(auto)]

mod index;
mod interfaces;
mod levels;
mod names;
mod places;
mod radio_ports;

pub use index::{Index, interface_places};
pub use interfaces::{asks_nothing, is_name, is_static, needs_device};
pub use levels::{LEVELS, Levels, Question, Told};
pub use names::{add_all, add_if, add_name};
pub use radio_ports::{
    Joins, PortAnswer, PortJoin, RadioPorts, has_name, is_bridge, is_first, is_plain,
};
