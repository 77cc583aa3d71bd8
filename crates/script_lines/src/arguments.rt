ghost use Rattle.std.specs.Prelude.{◌≡◌, IfOk};
ghost use Rattle.std.specs.List.{list_all};
ghost use Rattle.std.specs.Char.{is_ascii_digit};
ghost use Rattle.net_rows.specs.Number.{is_numeral};
ghost use Rattle.script_lines.specs.Arguments as spec;

use hex::FromHexError;
use kern_model::{DevName, read_name};
use plane_io::{Memory, Text};
use std::alloc::Global;
use std::str;

/// The MTU of a device where nothing else is said, in bytes: that of Ethernet (RFC 894).
pub const USUAL_MTU: u32 = 1500;

/// The number of 64 bits that decimal digits are. Zeros may stand in front, and a sign may not.
pub fn read_long_decimal(text: &[u8]) -> Option<u64>
    ensures { result ≡ spec.long_decimal_of text.now }
{
    if !is_numeral(text) {
        return None;
    }
    let Ok(digits) = str::from_utf8(text) else {
        return None;
    };
    let Ok(number) = digits.parse::<u64>() else {
        return None;
    };
    Some(number)
}

fn is_numeral(text: &[u8]) -> bool
    ensures { result ≡ is_numeral text.now }
{
    if text.is_empty() {
        return false;
    }
    has_only_digits(text)
}

fn has_only_digits(text: &[u8]) -> bool
    ensures { result ≡ list_all is_ascii_digit text.now }
{
    text.iter().all(|byte| byte.is_ascii_digit())
}

/// The name of a device that a text is.
pub fn read_device(text: &[u8]) -> Option<DevName>
    ensures { result ≡ spec.name_of text.now }
{
    read_name(text)
}

/// `0` or `1`.
pub fn read_switch(text: &[u8]) -> Option<bool>
    ensures { result ≡ spec.switch_of text.now }
{
    if text == b"0".as_slice() {
        Some(false)
    } else if text == b"1".as_slice() {
        Some(true)
    } else {
        None
    }
}

/// The bytes that pairs of hexadecimal digits are.
pub fn read_bytes(alloc: Global, text: &[u8]) -> Result<Option<Text>, Memory>
    ensures { IfOk result (λ bytes. bytes ≡ spec.bytes_of text.now) }
{
    match hex::decode(alloc, text) {
        Ok(bytes) => Ok(Some(Text::from_vec(bytes))),
        Err(FromHexError::OutOfMemory) => Err(Memory),
        Err(_) => Ok(None),
    }
}

/// The session that 32 hexadecimal digits are, or none for `-`.
pub fn read_caller(text: &[u8]) -> Option<Option<u128>>
    ensures { result ≡ spec.caller_of text.now }
{
    if text == b"-".as_slice() {
        return Some(None);
    }
    let mut bytes = [0; 16];
    match hex::decode_to_slice(text, &mut bytes) {
        Ok(()) => Some(Some(u128::from_be_bytes(bytes))),
        Err(_) => None,
    }
}
