//! Brings a network up from nothing: named devices come, the rows of a package are loaded, and one
//! settling makes the kernel hold what they want.
#![tactic(auto)]

mod bring_up;
mod devices;
mod requests;
mod rows;
mod start_error;

pub use bring_up::bring_network_up;
pub use devices::ETHERNET_MTU;
pub use rows::passed_limit;
pub use start_error::StartError;
