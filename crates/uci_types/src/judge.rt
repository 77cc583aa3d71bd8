ghost use Rattle.std.specs.Prelude.{◌≡◌, ◌∷◌, []};
ghost use Rattle.std.specs.List.{list_all};
ghost use Rattle.net_rows.specs.Words.{kept};
ghost use Rattle.uci_types.specs.Values as spec;
ghost use Rattle.uci_types.specs.Values.{in_set, in_some, in_all, in_each_word};
ghost use Rattle.net_rows.specs.Truth.{is_true, is_false};

use crate::address::{is_address, is_cidr4, is_cidr6, is_ipv4, is_ipv6};
use crate::number::{is_integer, is_natural, read_integer};
use crate::{Datatype, Kind};
use net_rows::{cut_first, read_mac};
use uci_text::{ByteClass, is_name};

/// Whether the value is one of the datatype. Takes no memory.
#[cycle(accepts)]
#[tactic(auto, using(crate::proofs::SetLemmas::in_or, crate::proofs::SetLemmas::in_and))]
pub fn accepts(datatype: &Datatype, value: &[u8]) -> bool
    ensures { result ≡ in_set datatype.now value.now }
{
    match datatype {
        Datatype::Plain(kind) => is_of_kind(*kind, value),
        Datatype::Literal(text) => value == text.as_bytes(),
        Datatype::Or(parts) => some_accepts(parts.as_slice(), value),
        Datatype::And(parts) => all_accept(parts.as_slice(), value),
        Datatype::Not(inner) => !accepts(inner.get(), value),
        Datatype::Items(inner) => each_word_accepted(inner.get(), value),
        Datatype::Range { low, high } => is_between(*low, *high, value),
        Datatype::Length { low, high } => {
            let count = value.len() as u64;
            *low <= count && count <= *high
        }
    }
}

#[cycle(accepts)]
fn some_accepts(parts: &[Datatype], value: &[u8]) -> bool
    ensures { result ≡ in_some parts.now value.now }
{
    for part in parts {
        if accepts(part, value) {
            return true;
        }
    }
    false
}

#[cycle(accepts)]
fn all_accept(parts: &[Datatype], value: &[u8]) -> bool
    ensures { result ≡ in_all parts.now value.now }
{
    for part in parts {
        if !accepts(part, value) {
            return false;
        }
    }
    true
}

// Whether each word of the value is accepted.
#[cycle(accepts)]
fn each_word_accepted(datatype: &Datatype, value: &[u8]) -> bool
    ensures { result ≡ in_each_word datatype.now value.now }
{
    let mut rest = value;
    while let Some((word, behind)) = cut_first(rest, b' ') {
        if !word_accepted(datatype, word) {
            return false;
        }
        rest = behind;
    }
    word_accepted(datatype, rest)
}

// Whether what stands between two spaces is accepted. Nothing between them is no word.
#[cycle(accepts)]
fn word_accepted(datatype: &Datatype, word: &[u8]) -> bool
    ensures { result ≡ list_all (in_set datatype.now) (kept (word.now ∷ [])) }
{
    if word.is_empty() {
        return true;
    }
    accepts(datatype, word)
}

fn is_of_kind(kind: Kind, value: &[u8]) -> bool
    ensures { result ≡ spec.is_of_kind kind value.now }
{
    match kind {
        Kind::AnyText => true,
        Kind::Bool => is_truth_word(value),
        Kind::Integer => is_integer(value),
        Kind::Uinteger => is_natural(value),
        Kind::Port => is_natural(value) && is_between(0, 65535, value),
        Kind::IpAddr => is_address(value),
        Kind::Ip4Addr => is_ipv4(value),
        Kind::Ip6Addr => is_ipv6(value),
        Kind::Cidr4 => is_cidr4(value),
        Kind::Cidr6 => is_cidr6(value),
        Kind::MacAddr => read_mac(value).is_some(),
        Kind::UciName => is_section_name(value),
    }
}

// Whether the value is an integer from `low` to `high`.
fn is_between(low: i128, high: i128, value: &[u8]) -> bool
    ensures { result ≡ spec.is_between low high value.now }
{
    match read_integer(value) {
        Some(number) => low <= number && number <= high,
        None => false,
    }
}

fn is_truth_word(value: &[u8]) -> bool
    ensures { result ≡ spec.is_truth_word value.now }
{
    is_true_word(value) || is_false_word(value)
}

fn is_true_word(value: &[u8]) -> bool
    ensures { result ≡ is_true value.now }
{
    value == b"1".as_slice()
        || value == b"on".as_slice()
        || value == b"true".as_slice()
        || value == b"yes".as_slice()
        || value == b"enabled".as_slice()
}

fn is_false_word(value: &[u8]) -> bool
    ensures { result ≡ is_false value.now }
{
    value == b"0".as_slice()
        || value == b"off".as_slice()
        || value == b"false".as_slice()
        || value == b"no".as_slice()
        || value == b"disabled".as_slice()
}

fn is_section_name(value: &[u8]) -> bool
    ensures { result ≡ spec.is_section_name value.now }
{
    is_name(ByteClass::Name, value)
}
