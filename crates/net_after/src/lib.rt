//! What an event makes of a network's inputs, computed as the definitions say.
#![tactic(auto)]

mod changes;
mod drops;
mod needed;
mod needs;
mod notices;
mod opens;
mod order;
mod places;
mod same;
mod steps;

pub use changes::changed;
pub use needed::{interface_needs, radio_needs};
pub use needs::{interface_need, radio_need};
pub use notices::{notices_between, numbers_of};
pub use order::in_order;
pub use same::{same_interface_request, same_radio_request};
pub use steps::{after, asked};
