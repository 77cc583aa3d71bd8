//! Why an event of a device or an answer is refused, looked up: names by the maps of what reaches
//! what, open requests by their numbers.
#![tactic(auto)]

mod devices;
mod interfaces;
mod radios;
mod stale;

pub use devices::device_refusal;
pub use interfaces::answer_refusal;
pub use radios::radio_refusal;
