ghost use Rattle.std.specs.Prelude.{◌≡◌, ◌≤◌, ℕ, true, decimal, IfSome, IfNone};
ghost use Rattle.std.specs.Bool.{OnTrue, OnFalse};
ghost use Rattle.kern_model.specs.Name.{is_name};
ghost use Rattle.kern_model.specs.VlanName.{IsVlanName, IsPlainName};

use crate::name::{DevName, read_name};
use itoa::Buffer;
use memchr::memrchr;
use std::str;

/// The least identifier of a VLAN (IEEE 802.1Q).
pub const LEAST_VLAN_ID: u16 = 1;

/// The greatest identifier of a VLAN (IEEE 802.1Q).
pub const MOST_VLAN_ID: u16 = 4094;

/// Reads a device name that is not of the form X.N, which stands for VLAN N over X.
pub fn read_plain_name(text: &[u8]) -> Option<DevName>
    ensures found { IfSome result (λ name. (name ≡ text.now) × IsPlainName text.now) }
    ensures none { IfNone result (IsPlainName text.now → ⊥) }
{
    let name = read_name(text)?;
    if is_vlan_name(text) {
        return None;
    }
    Some(name)
}

fn is_vlan_name(name: &[u8]) -> bool
    requires { is_name name.now ≡ true }
    ensures yes { OnTrue result (IsVlanName name.now) }
    ensures no { OnFalse result (IsVlanName name.now → ⊥) }
{
    let Some(dot) = memrchr(b'.', name) else {
        return false;
    };
    let (lower, rest) = name.split_at(dot);
    let Some((_, digits)) = rest.split_first() else {
        return false;
    };
    let Some(_) = read_name(lower) else {
        return false;
    };
    let Some(_) = vlan_id(digits) else {
        return false;
    };
    true
}

// The identifier of a VLAN that the digits stand for without leading zeros.
fn vlan_id(digits: &[u8]) -> Option<u16>
    ensures found { IfSome result (λ id. (digits.now ≡ decimal id)
        × (LEAST_VLAN_ID ≤ id) × (id ≤ MOST_VLAN_ID)) }
    ensures none { IfNone result ((id : ℕ) → LEAST_VLAN_ID ≤ id → id ≤ MOST_VLAN_ID
        → digits.now ≡ decimal id → ⊥) }
{
    let Ok(text) = str::from_utf8(digits) else {
        return None;
    };
    let Ok(id) = text.parse::<u16>() else {
        return None;
    };
    let mut buffer = Buffer::new();
    if buffer.format(id).as_bytes() != digits {
        return None;
    }
    if id < LEAST_VLAN_ID {
        return None;
    }
    if id > MOST_VLAN_ID {
        return None;
    }
    Some(id)
}
