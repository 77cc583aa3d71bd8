//! The rows of a network configuration as types, and what the options of its sections give: words,
//! truth values, numbers, names, VLAN names, hardware addresses.
#![tactic(auto)]

mod conf_error;
mod cut;
mod dotted;
mod fault_name;
mod hardware_address;
mod number;
mod options;
mod rows;
mod stated;
mod truth;
mod words;

pub use conf_error::ConfError;
pub use cut::{cut_first, cut_last};
pub use dotted::{VlanParts, vlan_parts};
pub use fault_name::FaultName;
pub use hardware_address::read_mac;
pub use number::{read_decimal, read_number, read_vlan_id};
pub use options::{is_given, text_of, value_of};
pub use rows::{
    Conf, DeviceRow, InterfaceRow, NameKind, NameRow, RadioRow, RouteRow, RowFault, VlanEntry,
    VlanRow, WifiRow,
};
pub use stated::{Stated, stated_mac, stated_name, stated_number, stated_vlan_id};
pub use truth::truth_of;
pub use words::{item_words, words_of};
