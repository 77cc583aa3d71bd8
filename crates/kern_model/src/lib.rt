//! The kernel as a model: devices, objects, the calls that change them, their order and their
//! lines.
#![tactic(auto)]

mod admission;
mod kernel;
mod laws;
mod name;
mod object;
mod print;
mod rank;
mod vlan_name;

pub use admission::{
    admits, find_device, is_among, is_present, may_happen, name_exists, own_mac, own_mtu,
};
pub use kernel::{Asked, Kernel};
pub use laws::{
    admitted_calls_keep_allowed, calls_lead_on, distinct_lines, events_keep_allowed,
    nothing_is_allowed, one_list_of_calls, over_is_by_vlans, vlans_are_one_higher,
};
pub use name::{DevName, read_name};
pub use object::{Call, DevEvent, Device, LinkKind, Mac, Object, RouteObject};
pub use print::print_call;
pub use vlan_name::{LEAST_VLAN_ID, MOST_VLAN_ID, read_plain_name};
