ghost use Rattle.std.specs.Prelude.{◌≡◌, ◌||◌};
ghost use Rattle.uci_types.specs.Address as spec;

use net_rows::{cut_first, read_number};
use std::net::{Ipv4Addr, Ipv6Addr};

/// Whether a text is an address of either family.
pub(crate) fn is_address(text: &[u8]) -> bool
    ensures { result ≡ (spec.is_ipv4 text.now || spec.is_ipv6 text.now) }
{
    is_ipv4(text) || is_ipv6(text)
}

/// Whether a text is an IPv4 address: four decimal numbers with no leading zeros (RFC 791).
pub(crate) fn is_ipv4(text: &[u8]) -> bool
    ensures { result ≡ spec.is_ipv4 text.now }
{
    match Ipv4Addr::parse_ascii(text) {
        Ok(_) => true,
        Err(_) => false,
    }
}

/// Whether a text is an IPv6 address (RFC 4291, section 2.2).
pub(crate) fn is_ipv6(text: &[u8]) -> bool
    ensures { result ≡ spec.is_ipv6 text.now }
{
    match Ipv6Addr::parse_ascii(text) {
        Ok(_) => true,
        Err(_) => false,
    }
}

/// Whether a text is an IPv4 address, `/` and a length of one to three digits that it has room for.
pub(crate) fn is_cidr4(text: &[u8]) -> bool
    ensures { result ≡ spec.is_cidr4 text.now }
{
    match cut_first(text, b'/') {
        Some((address, digits)) => is_ipv4(address) && is_length(digits, 32),
        None => false,
    }
}

/// Whether a text is an IPv6 address, `/` and a length of one to three digits that it has room for.
pub(crate) fn is_cidr6(text: &[u8]) -> bool
    ensures { result ≡ spec.is_cidr6 text.now }
{
    match cut_first(text, b'/') {
        Some((address, digits)) => is_ipv6(address) && is_length(digits, 128),
        None => false,
    }
}

fn is_length(digits: &[u8], most: u32) -> bool
    ensures { result ≡ spec.is_length most digits.now }
{
    digits.len() <= 3 && read_number(digits, 0, most).is_some()
}
