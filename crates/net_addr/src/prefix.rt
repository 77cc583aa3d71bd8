ghost use Rattle.std.specs.Prelude.{◌≡◌, ◌↔◌, ◌<◌, ◌≤◌, IsTrue, IfNone, IfSome};
ghost use Rattle.net_addr.specs.Width.{bits};

use crate::address::Addr;
use std::marker::Model;

/// An address and the length of its prefix in bits, which is at most 32 for IPv4 and 128 for IPv6
/// (RFC 4632, section 3.1; RFC 4291, section 2.3).
#[derive(Clone, Copy, PartialEq, Eq, Hash)]
pub struct Cidr {
    /// The address, with its host bits.
    pub addr: Addr,
    /// The length of the prefix in bits.
    pub length: u8,
}

impl Model for Cidr {
    ghost use Rattle.std.specs.Prelude.{ℕ};
    ghost use Rattle.net_addr.specs.declared.address.Addr.{Addr};
    ghost use Rattle.net_addr.specs.CidrModel.{cidr_view, of_pair, IsWithin};

    ghost Value = { Addr × ℕ };

    ghost view = { cidr_view };

    ghost invariant = { IsWithin };

    ghost inverse = { of_pair };
}

impl Cidr {
    /// The prefix of that length, or `None` where the length is more than the address has bits.
    pub fn new(addr: Addr, length: u8) -> Option<Cidr>
        ensures some { IfSome result (λ c. (c ≡ (addr, length)) × (length ≤ bits addr)) }
        ensures none { IfNone result (bits addr < length) }
    {
        if length > addr.bits() {
            return None;
        }
        Some(Cidr { addr, length })
    }

    /// Whether both have the same address, host bits included, and the same length.
    pub fn same(&self, other: &Cidr) -> bool
        ensures { IsTrue result ↔ (self.now ≡ other.now) }
    {
        self == other
    }
}
