//! The rows of `interface`, `route` and `route6` sections of a `network` package, and of the radios
//! of a `wireless` package (OpenWrt's network configuration). The interfaces are written as
//! releases from 21.02 on write them.
#![tactic(auto)]

mod address;
mod addresses;
mod copies;
mod faults;
mod gateways;
mod given;
mod interfaces;
mod kinds;
mod laws;
mod mask;
mod names;
mod network;
mod prefix;
mod radios;
mod routes;

pub use address::{Family, read_in};
pub use interfaces::interface_rows;
pub use kinds::{
    INTERFACE, MAIN, MAIN_TABLE, NONE, ROUTE, ROUTE6, STATIC, UNICAST, WIFI_DEVICE, WIFI_IFACE,
};
pub use laws::{addresses_are_spelled, host_bits_are_cleared, prefixes_are_spelled};
pub use mask::read_mask;
pub use network::without_host_bits;
pub use prefix::read_prefix;
pub use radios::radio_rows;
pub use routes::route_rows;
