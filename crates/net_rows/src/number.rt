ghost use Rattle.std.specs.Prelude.{◌≡◌, ◌≤◌, IfSome};
ghost use Rattle.std.specs.List.{list_all};
ghost use Rattle.std.specs.Char.{is_ascii_digit};
ghost use Rattle.kern_model.specs.declared.vlan_name.TheConstants.{LEAST_VLAN_ID, MOST_VLAN_ID};
ghost use Rattle.net_rows.specs.Number as spec;

use kern_model::{LEAST_VLAN_ID, MOST_VLAN_ID};
use std::str;

/// The number that a text of decimal digits is, where it has 32 bits. Zeros may stand in front, and
/// a sign may not.
pub fn read_decimal(text: &[u8]) -> Option<u32>
    ensures { result ≡ spec.decimal_of text.now }
{
    if !is_numeral(text) {
        return None;
    }
    let Ok(digits) = str::from_utf8(text) else {
        return None;
    };
    let Ok(number) = digits.parse::<u32>() else {
        return None;
    };
    Some(number)
}

/// That number, where it is within the bounds.
pub fn read_number(text: &[u8], least: u32, most: u32) -> Option<u32>
    ensures value { result ≡ spec.number_within least most text.now }
    ensures bound { IfSome result (λ number. number ≤ most) }
{
    let Some(number) = read_decimal(text) else {
        return None;
    };
    if number < least || number > most {
        return None;
    }
    Some(number)
}

/// The identifier of a VLAN that a text is, from 1 to 4094.
pub fn read_vlan_id(text: &[u8]) -> Option<u16>
    ensures { result ≡ spec.number_within LEAST_VLAN_ID MOST_VLAN_ID text.now }
{
    match read_number(text, u32::from(LEAST_VLAN_ID), u32::from(MOST_VLAN_ID)) {
        Some(id) => Some(id as u16),
        None => None,
    }
}

fn is_numeral(text: &[u8]) -> bool
    ensures { result ≡ spec.is_numeral text.now }
{
    if text.is_empty() {
        return false;
    }
    has_only_digits(text)
}

fn has_only_digits(text: &[u8]) -> bool
    ensures { result ≡ list_all is_ascii_digit text.now }
{
    text.iter().all(|byte| byte.is_ascii_digit())
}
