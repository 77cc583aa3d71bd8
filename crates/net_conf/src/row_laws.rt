// Laws of the constants that definitions cite. Each body is empty, and the contract is the law.
ghost use Rattle.std.specs.Prelude.{◌≡◌, codes};
ghost use Rattle.net_interfaces.specs.declared.kinds.TheConstants as kinds;
ghost use Rattle.net_devices.specs.declared.bridge_vlans.TheConstants.{MOST_VLAN_ROWS};
ghost use Rattle.net_devices.specs.declared.bridge_vlans.TheConstants.{MOST_VLAN_ENTRIES};
ghost use Rattle.net_devices.specs.declared.devices.TheConstants.{MOST_NAMES};
ghost use Rattle.net_devices.specs.declared.levels.TheConstants.{MOST_LEVELS};
ghost use Rattle.net_devices.specs.declared.said.TheConstants.{LEAST_MTU, MOST_MTU};
ghost use Rattle.net_conf.specs.declared.limits.TheConstants.{MOST_INTERFACES, MOST_ROUTES};
ghost use Rattle.net_conf.specs.declared.limits.TheConstants.{MOST_RADIOS, MOST_WIFI_ROWS};
ghost use Rattle.net_rules.specs.declared.refusal.TheConstants.{MOST_DEVICES, MOST_IN_ANSWER};

/// The types of sections and the words of options that rows are read by.
pub fn words_of_rows()
    ensures interface { kinds.INTERFACE.now ≡ codes "interface" }
    ensures fixed { kinds.STATIC.now ≡ codes "static" }
    ensures none { kinds.NONE.now ≡ codes "none" }
    ensures route { kinds.ROUTE.now ≡ codes "route" }
    ensures route6 { kinds.ROUTE6.now ≡ codes "route6" }
    ensures unicast { kinds.UNICAST.now ≡ codes "unicast" }
    ensures main { (kinds.MAIN.now ≡ codes "main") × (kinds.MAIN_TABLE ≡ 254) }
    ensures radio { kinds.WIFI_DEVICE.now ≡ codes "wifi-device" }
    ensures wifi { kinds.WIFI_IFACE.now ≡ codes "wifi-iface" }
{}

/// The longest lists of rows.
pub fn limits_of_rows()
    ensures interfaces { MOST_INTERFACES ≡ 1024 }
    ensures routes { MOST_ROUTES ≡ 4096 }
    ensures radios { MOST_RADIOS ≡ 64 }
    ensures wifi { MOST_WIFI_ROWS ≡ 256 }
    ensures names { MOST_NAMES ≡ 4096 }
    ensures vlans { (MOST_VLAN_ROWS ≡ 1024) × (MOST_VLAN_ENTRIES ≡ 16384) }
{}

/// The highest level of a name, and the bounds of an MTU.
pub fn limits_of_devices()
    ensures levels { MOST_LEVELS ≡ 8 }
    ensures mtu { (LEAST_MTU ≡ 68) × (MOST_MTU ≡ 65535) }
{}

/// The most present devices, and the longest lists of an answer.
pub fn limits_of_events()
    ensures devices { MOST_DEVICES ≡ 4096 }
    ensures answers { MOST_IN_ANSWER ≡ 64 }
{}
