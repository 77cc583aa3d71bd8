// The types of sections, and the protocols that the configuration plane carries out itself. The
// definitions cite these constants.

/// The type of a section that is an interface.
pub const INTERFACE: &[u8] = b"interface";

/// The protocol of an interface whose addresses stand in its section.
pub const STATIC: &[u8] = b"static";

/// The protocol of an interface without addresses.
pub const NONE: &[u8] = b"none";

/// The type of a section that is an IPv4 route.
pub const ROUTE: &[u8] = b"route";

/// The type of a section that is an IPv6 route.
pub const ROUTE6: &[u8] = b"route6";

/// The type of the routes that are carried out, which lead to one host or network.
pub const UNICAST: &[u8] = b"unicast";

/// The name of the table that is used where none is given.
pub const MAIN: &[u8] = b"main";

/// The number of that table.
pub const MAIN_TABLE: u32 = 254;

/// The type of a section that is a radio.
pub const WIFI_DEVICE: &[u8] = b"wifi-device";

/// The type of a section that is an interface of a radio.
pub const WIFI_IFACE: &[u8] = b"wifi-iface";
