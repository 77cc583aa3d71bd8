//! Calls of the network's objects on the message bus (OpenWrt's netifd): which methods they have,
//! what their arguments ask for, what they do to the plane of interfaces with the committed files
//! at hand, and what they answer.
#![tactic(auto)]

mod arguments;
mod call;
mod device_event;
mod method;
mod net_answer;
mod net_call;
mod net_object;
mod reading;
mod showing;

pub use call::call_network;
pub use net_answer::{NetAnswer, refuse};
pub use net_call::{NetCall, NetCallError};
pub use net_object::NetObject;
pub use reading::read_call;
pub use showing::{
    answer_device_status, answer_dump, answer_interface_status, answer_radio_status,
};
