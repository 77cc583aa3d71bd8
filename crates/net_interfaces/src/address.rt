ghost use Rattle.std.specs.Prelude.{◌≡◌, IfSome};
ghost use Rattle.net_addr.specs.Width.{bits};
ghost use Rattle.net_interfaces.specs.Address as spec;

use net_addr::{Addr, read_addr};

/// A family of addresses.
#[derive(Clone, Copy)]
pub enum Family {
    V4,
    V6,
}

impl Family {
    /// How many bits an address of the family has: 32 or 128.
    pub fn bits(&self) -> u8
        ensures { result ≡ spec.bits_of self.now }
    {
        match self {
            Family::V4 => 32,
            Family::V6 => 128,
        }
    }
}

/// The address of the family that a whole text is.
pub fn read_in(family: Family, text: &[u8]) -> Option<Addr>
    ensures value { result ≡ spec.addr_of family text.now }
    ensures wide { IfSome result (λ addr. bits addr ≡ spec.bits_of family) }
{
    match family {
        Family::V4 => read_v4(text),
        Family::V6 => read_v6(text),
    }
}

fn read_v4(text: &[u8]) -> Option<Addr>
    ensures value { result ≡ spec.v4_of text.now }
    ensures wide { IfSome result (λ addr. bits addr ≡ 32) }
{
    match read_addr(text) {
        Ok(Addr::V4(v4)) => Some(Addr::V4(v4)),
        Ok(Addr::V6(_)) => None,
        Err(_) => None,
    }
}

fn read_v6(text: &[u8]) -> Option<Addr>
    ensures value { result ≡ spec.v6_of text.now }
    ensures wide { IfSome result (λ addr. bits addr ≡ 128) }
{
    match read_addr(text) {
        Ok(Addr::V6(v6)) => Some(Addr::V6(v6)),
        Ok(Addr::V4(_)) => None,
        Err(_) => None,
    }
}
