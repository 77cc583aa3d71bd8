use crate::fault_name::FaultName;
use kern_model::{DevName, Mac};
use net_addr::{Addr, Cidr};
use plane_io::{Items, Text};
use uci_tree::Opt;

/// Something that is wrong with a row, and the port or word that it is about.
#[derive(Drop)]
pub struct RowFault {
    pub name: FaultName,
    pub argument: Option<Text>,
}

/// What kind of link a name is.
#[derive(Drop)]
pub enum NameKind {
    /// A device that is there or not, and is never made.
    Plain,
    /// A bridge with its own ports, radio ports aside. One with `empty` is available also where no
    /// port is.
    Bridge { empty: bool, ports: Items<DevName> },
    /// VLAN `id` over a name; without one, and with the identifier 0, where the section does not
    /// tell it.
    Vlan { lower: Option<DevName>, id: u16 },
}

/// A name of a network device.
#[derive(Drop)]
pub struct NameRow {
    pub name: DevName,
    pub kind: NameKind,
    /// From 1, and 9 where the name has the fault `TooHigh`.
    pub level: u8,
    /// Whether a fault of the row makes the device unavailable.
    pub broken: bool,
    pub mtu: Option<u32>,
    pub mac: Option<Mac>,
    pub faults: Items<RowFault>,
}

/// A `device` section.
#[derive(Drop)]
pub struct DeviceRow {
    pub name: Option<DevName>,
    pub faults: Items<RowFault>,
}

/// An `interface` section.
#[derive(Drop)]
pub struct InterfaceRow {
    pub name: Text,
    pub anonymous: bool,
    pub proto: Text,
    pub device: Option<DevName>,
    pub autostart: bool,
    pub disabled: bool,
    pub force_link: bool,
    pub metric: u32,
    pub addresses: Items<Cidr>,
    /// `gateway`, then `ip6gw`.
    pub gateways: Items<Addr>,
    /// What the request of the row shows.
    pub options: Items<Opt>,
    pub faults: Items<RowFault>,
}

/// A `route` or `route6` section.
#[derive(Drop)]
pub struct RouteRow {
    /// The place of the interface among the interfaces.
    pub interface: Option<usize>,
    pub target: Cidr,
    pub via: Option<Addr>,
    pub metric: u32,
    pub table: u32,
    pub disabled: bool,
    pub faults: Items<RowFault>,
}

/// A `wifi-iface` section.
#[derive(Drop)]
pub struct WifiRow {
    pub network: Option<Text>,
    pub disabled: bool,
    pub options: Items<Opt>,
}

/// A `wifi-device` section with its `wifi-iface` sections.
#[derive(Drop)]
pub struct RadioRow {
    pub name: Text,
    pub disabled: bool,
    pub options: Items<Opt>,
    pub rows: Items<WifiRow>,
    pub faults: Items<RowFault>,
}

/// A port of a VLAN of a bridge.
#[derive(Clone, Copy)]
pub struct VlanEntry {
    pub port: DevName,
    pub pvid: bool,
    pub untagged: bool,
}

/// A `bridge-vlan` section.
#[derive(Drop)]
pub struct VlanRow {
    pub bridge: Option<DevName>,
    /// From 1 to 4094, and 0 where the section does not tell it.
    pub id: u16,
    pub local: bool,
    pub passed_over: bool,
    pub entries: Items<VlanEntry>,
    pub faults: Items<RowFault>,
}

/// The rows of a configuration, each list in file order.
#[derive(Drop)]
pub struct Conf {
    pub interfaces: Items<InterfaceRow>,
    pub devices: Items<DeviceRow>,
    pub routes: Items<RouteRow>,
    pub radios: Items<RadioRow>,
    pub names: Items<NameRow>,
    pub vlans: Items<VlanRow>,
}
