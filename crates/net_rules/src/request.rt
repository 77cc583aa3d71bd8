use kern_model::DevName;
use plane_io::{Items, Text};
use uci_tree::Opt;

/// What the handler of a protocol is asked for an interface.
#[derive(Drop)]
pub struct InterfaceRequest {
    pub name: Text,
    pub proto: Text,
    /// In byte order of their names.
    pub options: Items<Opt>,
    pub device: Option<DevName>,
}

/// An enabled `wifi-iface` section in the request of its radio.
#[derive(Drop)]
pub struct WifiRequest {
    /// In byte order of their names.
    pub options: Items<Opt>,
}

/// What the handler of a radio is asked.
#[derive(Drop)]
pub struct RadioRequest {
    pub name: Text,
    /// In byte order of their names.
    pub options: Items<Opt>,
    /// The enabled sections in file order.
    pub rows: Items<WifiRequest>,
}
