//! The plane of interfaces: commits, reloads, devices that come and go, operator states and answers
//! in any order; once settled, the kernel holds exactly what a fresh start would give.
#![tactic(auto)]

mod answer;
mod device;
mod laws;
mod load;
mod net;
mod net_error;
mod next;
mod operator;
mod radio;
mod status;

pub use laws::{no_call_names_what_stayed, settled_planes_are_as_fresh_ones};
pub use net::Net;
pub use net_error::NetError;
pub use next::MOST_NEXT;
