//! The ranks of the kinds of objects, from what stands below to what stands above, and of calls.
ghost use Rattle.std.specs.Prelude.{◌≡◌};
ghost use Rattle.kern_model.specs.CallOrder.{kind_rank, rank};

use crate::object::{Call, Object};

pub const LINK_RANK: u8 = 0;

pub const MTU_RANK: u8 = 1;

pub const MAC_RANK: u8 = 2;

pub const MASTER_RANK: u8 = 3;

pub const VLAN_RANK: u8 = 4;

pub const UP_RANK: u8 = 5;

pub const ADDRESS_RANK: u8 = 6;

pub const ROUTE_RANK: u8 = 7;

impl Object {
    // The rank of its kind.
    pub(crate) fn kind_rank(&self) -> u8
        ensures { result ≡ kind_rank self.now }
    {
        match self {
            Object::Link { .. } => LINK_RANK,
            Object::Mtu { .. } => MTU_RANK,
            Object::Mac { .. } => MAC_RANK,
            Object::Master { .. } => MASTER_RANK,
            Object::Vlan { .. } => VLAN_RANK,
            Object::Up { .. } => UP_RANK,
            Object::Address { .. } => ADDRESS_RANK,
            Object::Route(_) => ROUTE_RANK,
        }
    }
}

impl Call {
    /// The place of its kind in the order of calls: takes come from above to below, and then puts
    /// from below to above.
    pub fn rank(&self) -> u8
        ensures { result ≡ rank self.now }
    {
        match self {
            Call::Take { object, .. } => ROUTE_RANK - object.kind_rank(),
            Call::Put(object) => ROUTE_RANK + 1 + object.kind_rank(),
        }
    }
}
