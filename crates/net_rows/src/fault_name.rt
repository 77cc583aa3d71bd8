/// What can be wrong with a row.
#[derive(Clone, Copy)]
pub enum FaultName {
    /// A `device` section has no `name`.
    NoName,
    /// Its `name` is no device name.
    BadName,
    /// The `type` is unknown.
    WrongType,
    /// The VLAN has no identifier from 1 to 4094.
    BadVid,
    /// The VLAN has no device name that it stands on.
    BadLower,
    /// A port is no device name.
    BadPort,
    /// A bridge is named as a port.
    BridgePort,
    /// An earlier VLAN has the same identifier over the same name, or on the same bridge.
    SameVlan,
    /// The name stands above itself or is higher than 8 levels.
    TooHigh,
    /// The MTU is no decimal from 68 to 65535.
    BadMtu,
    /// The hardware address does not read.
    BadMac,
    /// The `device` of a VLAN of a bridge is no bridge.
    NoBridge,
    /// A port stands twice in one VLAN of a bridge.
    DoublePort,
    /// A port has a PVID already.
    SecondPvid,
    /// The `device` of an interface is no device name.
    BadDevice,
    /// The `device` of an interface is another interface, as `@lan`.
    Alias,
    /// An address does not read.
    BadAddress,
    /// A `netmask` does not read.
    BadMask,
    /// A gateway does not read.
    BadGateway,
    /// The metric is no decimal of 32 bits.
    BadMetric,
    /// The interface is written as before release 21.02.
    OldSyntax,
    /// A route's `interface` is none.
    NoInterface,
    /// A route's target does not read.
    BadTarget,
    /// A route's table does not read.
    BadTable,
}
