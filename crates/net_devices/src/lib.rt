//! The rows of network configuration files: `device` sections, and the names of network devices
//! with their kinds, levels and faults (OpenWrt's network configuration).
#![tactic(auto)]

mod bridge_vlans;
mod counted;
mod devices;
mod each_once;
mod entries;
mod faults;
mod kinds;
mod laws;
mod levels;
mod name_rows;
mod names;
mod said;
mod said_index;
mod vlan_table;

pub use bridge_vlans::{MOST_VLAN_ENTRIES, MOST_VLAN_ROWS, has_too_many_entries, vlan_rows};
pub use counted::all_said;
pub use devices::{DeviceConf, MOST_NAMES, read_devices};
pub use kinds::kind_of;
pub use laws::{levels_are_exact, lowers_are_all_listed};
pub use levels::{FoundLevels, MOST_LEVELS, is_bridge};
pub use name_rows::{rows_of_names, rows_of_sections};
pub use names::{MOST_LOWERS, all_names};
pub use said::{DeviceSection, LEAST_MTU, MOST_MTU, Said, StatedKind, device_section};
pub use said_index::SaidIndex;
