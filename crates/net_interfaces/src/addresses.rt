ghost use Rattle.std.specs.Prelude.{◌≡◌, ◌≤◌, ◌++◌, ℕ, IfOk, OnOk};
ghost use Rattle.net_rows.specs.declared.stated.Stated.TheVariants.{Read};
ghost use Rattle.net_interfaces.specs.Address.{bits_of};
ghost use Rattle.net_interfaces.specs.Addresses as spec;

use crate::address::Family;
use crate::given::option_words;
use crate::kinds::{NONE, STATIC};
use crate::mask::read_mask;
use crate::prefix::read_prefix;
use net_addr::Cidr;
use net_rows::{Stated, text_of, value_of};
use plane_io::{Items, Memory, Text};
use std::alloc::Global;
use uci_tree::{Opt, Value};

/// The protocol of an interface, `none` where no text gives one.
pub fn proto_of(options: &[Opt]) -> &[u8]
    ensures { result.now ≡ spec.proto_of options.now }
{
    match text_of(options, b"proto") {
        Some(proto) => proto,
        None => NONE,
    }
}

/// Whether the protocol is that of addresses that stand in the section.
pub fn is_static(options: &[Opt]) -> bool
    ensures { result ≡ spec.is_static options.now }
{
    proto_of(options) == STATIC
}

/// The length whose mask `netmask` gives.
pub fn stated_mask(options: &[Opt]) -> Stated<u8>
    ensures value { result ≡ spec.stated_mask options.now }
    ensures within { (length : ℕ) → result ≡ Read length → length ≤ 32 }
{
    match value_of(options, b"netmask") {
        None => Stated::Absent,
        Some(Value::Many(_)) => Stated::Unread,
        Some(Value::One(text)) => match read_mask(text.as_bytes()) {
            Some(length) => Stated::Read(length),
            None => Stated::Unread,
        },
    }
}

/// The length that an IPv4 address without one has: that of `netmask`, and else that of a host.
pub fn alone_v4(options: &[Opt]) -> u8
    ensures value { result ≡ spec.alone_v4 options.now }
    ensures within { result ≤ 32 }
{
    match stated_mask(options) {
        Stated::Read(length) => length,
        Stated::Absent => Family::V4.bits(),
        Stated::Unread => Family::V4.bits(),
    }
}

/// The addresses of an interface, which are none where its protocol is not static.
pub fn addresses_of(alloc: Global, options: &[Opt]) -> Result<Items<Cidr>, Memory>
    ensures { IfOk result (λ addresses. addresses ≡ spec.addresses options.now) }
{
    let mut addresses = Items::new(alloc);
    if !is_static(options) {
        return Ok(addresses);
    }
    let words = option_words(alloc, options, b"ipaddr")?;
    add_prefixes(
        &mut addresses,
        Family::V4,
        alone_v4(options),
        words.as_slice(),
    )?;
    let words = option_words(alloc, options, b"ip6addr")?;
    add_prefixes(
        &mut addresses,
        Family::V6,
        Family::V6.bits(),
        words.as_slice(),
    )?;
    Ok(addresses)
}

fn add_prefixes(
    addresses: &mut Items<Cidr>,
    family: Family,
    alone: u8,
    words: &[Text],
) -> Result<(), Memory>
    requires { alone ≤ bits_of family }
    ensures { OnOk result (addresses.new ≡ addresses.old ++ spec.prefixes family alone words.now) }
{
    for word in words {
        if let Some(cidr) = read_prefix(family, alone, word.as_bytes()) {
            addresses.push(cidr)?;
        }
    }
    Ok(())
}

/// Whether some address does not read.
pub fn has_bad_address(alloc: Global, options: &[Opt]) -> Result<bool, Memory>
    ensures { IfOk result (λ bad. bad ≡ spec.has_bad_address options.now) }
{
    let words = option_words(alloc, options, b"ipaddr")?;
    if has_bad_prefix(Family::V4, alone_v4(options), words.as_slice()) {
        return Ok(true);
    }
    let words = option_words(alloc, options, b"ip6addr")?;
    Ok(has_bad_prefix(Family::V6, Family::V6.bits(), words.as_slice()))
}

fn has_bad_prefix(family: Family, alone: u8, words: &[Text]) -> bool
    requires { alone ≤ bits_of family }
    ensures { result ≡ spec.has_bad_prefix family alone words.now }
{
    words.iter().any(|word| read_prefix(family, alone, word.as_bytes()).is_none())
}
