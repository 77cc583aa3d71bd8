ghost use Rattle.std.specs.Prelude.{◌≡◌, ◌≤◌, Some, IfSome};
ghost use Rattle.net_interfaces.specs.Address.{addr_of, bits_of};
ghost use Rattle.net_interfaces.specs.Prefix as spec;

use crate::address::{Family, read_in};
use net_addr::Cidr;
use net_rows::{cut_first, read_number};

/// How many digits the length of a prefix has at most.
const MOST_DIGITS: usize = 3;

/// The prefix of the family that a whole text is: an address and a length (A/L), or an address (A),
/// whose length is then `alone`.
pub fn read_prefix(family: Family, alone: u8, text: &[u8]) -> Option<Cidr>
    requires { alone ≤ bits_of family }
    ensures { result ≡ spec.prefix_of family alone text.now }
{
    let Some((address, digits)) = cut_first(text, b'/') else {
        return with_length(family, text, alone);
    };
    let Some(length) = read_length(family, digits) else {
        return None;
    };
    with_length(family, address, length)
}

fn with_length(family: Family, address: &[u8], length: u8) -> Option<Cidr>
    requires { length ≤ bits_of family }
    ensures { result ≡ spec.both (addr_of family address.now) (Some length) }
{
    let Some(addr) = read_in(family, address) else {
        return None;
    };
    Cidr::new(addr, length)
}

fn read_length(family: Family, digits: &[u8]) -> Option<u8>
    ensures value { result ≡ spec.length_of family digits.now }
    ensures within { IfSome result (λ length. length ≤ bits_of family) }
{
    if digits.len() > MOST_DIGITS {
        return None;
    }
    let Some(length) = read_number(digits, 0, u32::from(family.bits())) else {
        return None;
    };
    Some(length as u8)
}
