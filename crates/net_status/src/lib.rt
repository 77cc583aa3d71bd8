//! What is shown of a network's interfaces, devices and radios, as JSON.
#![tactic(auto)]

mod devices;
mod faults;
mod given;
mod interfaces;
mod radios;
mod values;

pub use devices::device_status;
pub use faults::fault_word;
pub use interfaces::{dump, interface_status};
pub use radios::radio_status;
