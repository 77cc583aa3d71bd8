ghost use Rattle.std.specs.Prelude.{◌≡◌, ◌↔◌, IsTrue, false};
ghost use Rattle.std.specs.Ordering.{eq_by_cmp};
ghost use Rattle.kern_model.specs.ObjectOrder.{object_cmp};
ghost use Rattle.kern_model.specs.Kernel.{object_of, name_of, replaces};
ghost use Rattle.kern_model.specs.AdmissionTest.{is_link_of, is_bridge_of, is_vlan_with};
ghost use Rattle.kern_model.specs.AdmissionTest.{is_vlan_over, is_at};
ghost use Rattle.kern_model.specs.AdmissionTest.{is_master_of, is_filtering_of, is_vlan_on};
ghost use Rattle.kern_model.specs.AdmissionTest.{is_pvid_on, is_vlan_of};

use crate::name::DevName;
use net_addr::{Addr, Cidr};

/// A hardware address (IEEE 802, 48 bits).
#[derive(Clone, Copy, PartialEq, Eq, Hash)]
pub struct Mac(pub [u8; 6]);

/// What a present device came with: its carrier, its MTU in bytes and its hardware address.
#[derive(Clone, Copy)]
pub struct Device {
    pub carrier: bool,
    pub mtu: u32,
    pub mac: Mac,
}

/// The kinds of links that are made: bridges, which may filter VLANs, and VLANs (IEEE 802.1Q) of an
/// `id` over a `lower` name. A link may be made with a hardware address.
#[derive(Clone, Copy, PartialEq, Eq, Hash)]
pub enum LinkKind {
    Bridge {
        mac: Option<Mac>,
        filtering: bool,
    },
    Vlan {
        lower: DevName,
        id: u16,
        mac: Option<Mac>,
    },
}

/// A route: where to, by which gateway if any, on which device, with its metric and its table.
#[derive(Clone, Copy, PartialEq, Eq, Hash)]
pub struct RouteObject {
    pub target: Cidr,
    pub via: Option<Addr>,
    pub dev: DevName,
    pub metric: u32,
    pub table: u32,
}

/// What a kernel holds beside its present devices. A VLAN of a bridge is set on one of its ports,
/// or on the bridge itself. Two objects are one exactly where all their fields are equal.
#[derive(Clone, Copy, PartialEq, Eq, Hash)]
pub enum Object {
    Link {
        name: DevName,
        kind: LinkKind,
    },
    Mtu {
        name: DevName,
        mtu: u32,
    },
    Mac {
        name: DevName,
        mac: Mac,
    },
    Master {
        port: DevName,
        bridge: DevName,
    },
    Vlan {
        bridge: DevName,
        port: DevName,
        id: u16,
        pvid: bool,
        untagged: bool,
    },
    Up {
        name: DevName,
    },
    Address {
        dev: DevName,
        cidr: Cidr,
    },
    Route(RouteObject),
}

/// A call: put an object, or take it. A take carries the values of the device's own that come back
/// with it.
#[derive(Clone, Copy)]
pub enum Call {
    Put(Object),
    Take { object: Object, mtu: u32, mac: Mac },
}

impl Object {
    /// Whether both are one object.
    pub fn same(&self, other: &Object) -> bool
        ensures { IsTrue result ↔ (self.now ≡ other.now) }
    {
        match self {
            Object::Link { name, kind } => other.is_link(name, kind),
            Object::Mtu { name, mtu } => other.is_mtu(name, *mtu),
            Object::Mac { name, mac } => other.is_mac(name, mac),
            Object::Master { port, bridge } => other.is_master(port, bridge),
            Object::Vlan {
                bridge,
                port,
                id,
                pvid,
                untagged,
            } => other.is_vlan(bridge, port, *id, *pvid, *untagged),
            Object::Up { name } => other.is_up(name),
            Object::Address { dev, cidr } => other.is_address(dev, cidr),
            Object::Route(route) => other.is_route(route),
        }
    }

    fn is_link(&self, name: &DevName, kind: &LinkKind) -> bool
        ensures { IsTrue result ↔ (Object.Link name.now kind.now ≡ self.now) }
    {
        match self {
            Object::Link {
                name: other,
                kind: other_kind,
            } => name.same(other) && kind == other_kind,
            _ => false,
        }
    }

    fn is_mtu(&self, name: &DevName, mtu: u32) -> bool
        ensures { IsTrue result ↔ (Object.Mtu name.now mtu ≡ self.now) }
    {
        match self {
            Object::Mtu {
                name: other,
                mtu: other_mtu,
            } => name.same(other) && mtu == *other_mtu,
            _ => false,
        }
    }

    fn is_mac(&self, name: &DevName, mac: &Mac) -> bool
        ensures { IsTrue result ↔ (Object.Mac name.now mac.now ≡ self.now) }
    {
        match self {
            Object::Mac {
                name: other,
                mac: other_mac,
            } => name.same(other) && mac == other_mac,
            _ => false,
        }
    }

    fn is_master(&self, port: &DevName, bridge: &DevName) -> bool
        ensures { IsTrue result ↔ (Object.Master port.now bridge.now ≡ self.now) }
    {
        match self {
            Object::Master {
                port: other,
                bridge: other_bridge,
            } => port.same(other) && bridge.same(other_bridge),
            _ => false,
        }
    }

    fn is_vlan(&self, bridge: &DevName, port: &DevName, id: u16, pvid: bool, untagged: bool) -> bool
        ensures { IsTrue result ↔ (Object.Vlan bridge.now port.now id pvid untagged ≡ self.now) }
    {
        match self {
            Object::Vlan {
                bridge: other_bridge,
                port: other,
                id: other_id,
                pvid: other_pvid,
                untagged: other_untagged,
            } => {
                bridge.same(other_bridge)
                    && port.same(other)
                    && id == *other_id
                    && pvid == *other_pvid
                    && untagged == *other_untagged
            }
            _ => false,
        }
    }

    fn is_up(&self, name: &DevName) -> bool
        ensures { IsTrue result ↔ (Object.Up name.now ≡ self.now) }
    {
        match self {
            Object::Up { name: other } => name.same(other),
            _ => false,
        }
    }

    fn is_address(&self, dev: &DevName, cidr: &Cidr) -> bool
        ensures { IsTrue result ↔ (Object.Address dev.now cidr.now ≡ self.now) }
    {
        match self {
            Object::Address {
                dev: other,
                cidr: other_cidr,
            } => dev.same(other) && cidr.same(other_cidr),
            _ => false,
        }
    }

    fn is_route(&self, route: &RouteObject) -> bool
        ensures { IsTrue result ↔ (Object.Route route.now ≡ self.now) }
    {
        match self {
            Object::Route(other) => route == other,
            _ => false,
        }
    }

    /// As `same`, in the words of the order of objects.
    pub fn is(&self, other: &Object) -> bool
        ensures { result ≡ eq_by_cmp object_cmp self.now other.now }
    {
        self.same(other)
    }

    /// The name whose own values come back when the object is taken; of a master or a VLAN of a
    /// bridge, its port.
    pub fn name(&self) -> DevName
        ensures { result ≡ name_of self.now }
    {
        match self {
            Object::Link { name, .. } => *name,
            Object::Mtu { name, .. } => *name,
            Object::Mac { name, .. } => *name,
            Object::Master { port, .. } => *port,
            Object::Vlan { port, .. } => *port,
            Object::Up { name } => *name,
            Object::Address { dev, .. } => *dev,
            Object::Route(route) => route.dev,
        }
    }

    /// Whether this object may take the place of another.
    pub fn is_value(&self) -> bool
        ensures { (result ≡ false) → (old : _) → replaces self.now old ≡ false }
    {
        matches!(self, Object::Mtu { .. } | Object::Mac { .. })
    }

    /// Whether this object takes the place of the other: an MTU or a hardware address that of the
    /// one of its name.
    pub fn replaces(&self, old: &Object) -> bool
        ensures { result ≡ replaces self.now old.now }
    {
        match (self, old) {
            (Object::Mtu { name, .. }, Object::Mtu { name: other, .. }) => {
                name.text() == other.text()
            }
            (Object::Mac { name, .. }, Object::Mac { name: other, .. }) => {
                name.text() == other.text()
            }
            _ => false,
        }
    }

    /// Whether the object is a link of that name.
    pub fn is_link_of(&self, name: &DevName) -> bool
        ensures { result ≡ is_link_of name.now self.now }
    {
        match self {
            Object::Link { name: other, .. } => other.text() == name.text(),
            _ => false,
        }
    }

    pub(crate) fn is_bridge_of(&self, name: &DevName) -> bool
        ensures { result ≡ is_bridge_of name.now self.now }
    {
        match self {
            Object::Link {
                name: other,
                kind: LinkKind::Bridge { .. },
            } => other.text() == name.text(),
            _ => false,
        }
    }

    pub(crate) fn is_vlan_with(&self, lower: &DevName, id: u16) -> bool
        ensures { result ≡ is_vlan_with lower.now id self.now }
    {
        match self {
            Object::Link {
                kind: LinkKind::Vlan {
                    lower: other,
                    id: other_id,
                    ..
                },
                ..
            } => other.text() == lower.text() && *other_id == id,
            _ => false,
        }
    }

    /// Whether the object is a VLAN over that name.
    pub fn is_vlan_over(&self, lower: &DevName) -> bool
        ensures { result ≡ is_vlan_over lower.now self.now }
    {
        match self {
            Object::Link {
                kind: LinkKind::Vlan { lower: other, .. },
                ..
            } => other.text() == lower.text(),
            _ => false,
        }
    }

    pub(crate) fn is_master_of(&self, port: &DevName) -> bool
        ensures { result ≡ is_master_of port.now self.now }
    {
        match self {
            Object::Master { port: other, .. } => other.text() == port.text(),
            _ => false,
        }
    }

    pub(crate) fn is_filtering_of(&self, name: &DevName) -> bool
        ensures { result ≡ is_filtering_of name.now self.now }
    {
        match self {
            Object::Link {
                name: other,
                kind: LinkKind::Bridge { filtering, .. },
            } => other.text() == name.text() && *filtering,
            _ => false,
        }
    }

    pub(crate) fn is_vlan_on(&self, port: &DevName, id: u16) -> bool
        ensures { result ≡ is_vlan_on port.now id self.now }
    {
        match self {
            Object::Vlan {
                port: other,
                id: other_id,
                ..
            } => other.text() == port.text() && *other_id == id,
            _ => false,
        }
    }

    pub(crate) fn is_pvid_on(&self, port: &DevName) -> bool
        ensures { result ≡ is_pvid_on port.now self.now }
    {
        match self {
            Object::Vlan {
                port: other,
                pvid,
                ..
            } => other.text() == port.text() && *pvid,
            _ => false,
        }
    }

    pub(crate) fn is_vlan_of(&self, bridge: &DevName, port: &DevName) -> bool
        ensures { result ≡ is_vlan_of bridge.now port.now self.now }
    {
        match self {
            Object::Vlan {
                bridge: other_bridge,
                port: other,
                ..
            } => other_bridge.text() == bridge.text() && other.text() == port.text(),
            _ => false,
        }
    }

    /// Whether the object is at that name: a VLAN at the name under it, a master at its port and at
    /// its bridge.
    pub fn is_at(&self, name: &DevName) -> bool
        ensures { result ≡ is_at name.now self.now }
    {
        match self {
            Object::Link {
                kind: LinkKind::Vlan { lower, .. },
                ..
            } => lower.text() == name.text(),
            Object::Link { .. } => false,
            Object::Mtu { name: other, .. } => other.text() == name.text(),
            Object::Mac { name: other, .. } => other.text() == name.text(),
            Object::Master { port, bridge } => {
                port.text() == name.text() || bridge.text() == name.text()
            }
            Object::Vlan { bridge, port, .. } => {
                port.text() == name.text() || bridge.text() == name.text()
            }
            Object::Up { name: other } => other.text() == name.text(),
            Object::Address { dev, .. } => dev.text() == name.text(),
            Object::Route(route) => route.dev.text() == name.text(),
        }
    }
}

impl Call {
    /// Whether both are one call.
    pub fn same(&self, other: &Call) -> bool
        ensures { IsTrue result ↔ (self.now ≡ other.now) }
    {
        match self {
            Call::Put(object) => match other {
                Call::Put(other_object) => object.same(other_object),
                Call::Take { .. } => false,
            },
            Call::Take { object, mtu, mac } => match other {
                Call::Take {
                    object: other_object,
                    mtu: other_mtu,
                    mac: other_mac,
                } => object.same(other_object) && mtu == other_mtu && mac == other_mac,
                Call::Put(_) => false,
            },
        }
    }

    /// What is put or taken.
    pub fn object(&self) -> Object
        ensures { result ≡ object_of self.now }
    {
        match self {
            Call::Put(object) => *object,
            Call::Take { object, .. } => *object,
        }
    }
}

/// What happens to the present devices.
#[derive(Clone, Copy)]
pub enum DevEvent {
    Add {
        name: DevName,
        carrier: bool,
        mtu: u32,
        mac: Mac,
    },
    Remove {
        name: DevName,
    },
    Carrier {
        name: DevName,
        on: bool,
    },
}
