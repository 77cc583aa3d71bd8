ghost use Rattle.std.specs.Prelude.{◌≡◌, ◌^◌, ◌<◌, ◌≤◌, ◌==◌, ℕ, length, position, IfErr, IfOk};
ghost use Rattle.std.specs.Prelude.{IfSome, Ok, Some};
ghost use Rattle.net_addr.specs.Byte.{slash};
ghost use Rattle.net_addr.specs.CidrSpelling.{IsRefusal, SpellsCidr, SpellsLength, SpellsSuffix};
ghost use Rattle.net_addr.specs.CidrSpelling as CidrSpelling;
ghost use Rattle.net_addr.specs.Spelling.{Spells};
ghost use Rattle.net_addr.specs.declared.address.Addr.{Addr};

use crate::address::{Addr, V4, V6};
use crate::error::AddrError;
use crate::prefix::Cidr;
use std::net::IpAddr;
use std::str;

/// Reads a whole text as an address.
///
/// An IPv4 address is four decimal numbers with no leading zeros (RFC 791), and an IPv6 address is
/// what RFC 4291, section 2.2, writes. A zone, as in `fe80::1%eth0`, is not part of an address.
///
/// # Errors
///
/// `BadAddress` where the text is neither.
pub fn read_addr(text: &[u8]) -> Result<Addr, AddrError>
    ensures found { IfOk result (Spells text.now) }
    ensures only { (a : Addr) → Spells text.now a → result ≡ Ok a }
    ensures refused { IfErr result (λ e. (e ≡ AddrError.BadAddress)
        × ((a : Addr) → ¬ (Spells text.now a))) }
{
    match IpAddr::parse_ascii(text) {
        Ok(IpAddr::V4(ip)) => Ok(Addr::V4(V4(ip.octets()))),
        Ok(IpAddr::V6(ip)) => Ok(Addr::V6(V6(ip.octets()))),
        Err(_) => Err(AddrError::BadAddress),
    }
}

/// Reads a whole text as a prefix: an address, `/` and a length of one to three decimal digits, as
/// `192.168.1.1/24` or `2001:db8::/32`. The address keeps its host bits.
///
/// # Errors
///
/// `BadAddress` where what stands before the first `/`, or the whole text without one, is no
/// address. Else `BadLength`, where no length that the address has room for follows.
pub fn read_cidr(text: &[u8]) -> Result<Cidr, AddrError>
    ensures found { IfOk result (SpellsCidr text.now) }
    ensures only { (c : Addr × ℕ) → SpellsCidr text.now c → result ≡ Ok c }
    ensures refused { IfErr result (IsRefusal text.now) }
{
    let address = before_slash(text);
    let addr = read_addr(address)?;
    let Some(length) = read_suffix(&text[address.len()..]) else {
        return Err(AddrError::BadLength);
    };
    match Cidr::new(addr, length) {
        Some(cidr) => Ok(cidr),
        None => Err(AddrError::BadLength),
    }
}

fn before_slash(text: &[u8]) -> &[u8]
    ensures text { result.now ≡ CidrSpelling.before_slash text.now }
    ensures within { length result.now ≤ length text.now }
{
    match first_slash(text) {
        Some(slash) => &text[..slash],
        None => text,
    }
}

fn first_slash(text: &[u8]) -> Option<usize>
    ensures { result ≡ position (λ b. b == slash) text.now }
{
    text.iter().position(|b| *b == b'/')
}

// A slash and a length.
fn read_suffix(suffix: &[u8]) -> Option<u8>
    ensures found { IfSome result (SpellsSuffix suffix.now) }
    ensures only { (n : ℕ) → SpellsSuffix suffix.now n → n < 2 ^ 8 → result ≡ Some n }
{
    match suffix {
        [b'/', digits @ ..] => read_length(digits),
        _ => None,
    }
}

fn read_length(digits: &[u8]) -> Option<u8>
    ensures found { IfSome result (SpellsLength digits.now) }
    ensures only { (n : ℕ) → SpellsLength digits.now n → n < 2 ^ 8 → result ≡ Some n }
{
    // A number for `parse` may begin with a plus.
    if digits.len() > 3 || digits.starts_with(b"+") {
        return None;
    }
    let Ok(text) = str::from_utf8(digits) else {
        return None;
    };
    text.parse().ok()
}
