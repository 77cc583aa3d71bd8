ghost use Rattle.std.specs.Prelude.{◌≡◌, ◌≤ℤ◌, pos, IfSome};
ghost use Rattle.std.specs.Option.{option_map};
ghost use Rattle.std.specs.List.{list_all};
ghost use Rattle.std.specs.Char.{is_ascii_digit};
ghost use Rattle.net_rows.specs.Number as numeral;
ghost use Rattle.uci_types.specs.Number as spec;

use std::str;

/// The integer that a text is: 1 to 38 decimal digits, perhaps after a `-`. Zeros may stand in
/// front.
pub(crate) fn read_integer(text: &[u8]) -> Option<i128>
    ensures { result ≡ spec.integer_of text.now }
{
    match text {
        [b'-', digits @ ..] => match read_natural(digits) {
            Some(number) => Some(-number),
            None => None,
        },
        _ => read_natural(text),
    }
}

// The number that a text of 1 to 38 decimal digits is.
fn read_natural(text: &[u8]) -> Option<i128>
    ensures value { result ≡ option_map pos (spec.natural_of text.now) }
    ensures sign { IfSome result (λ number. pos 0 ≤ℤ number) }
{
    if !is_natural(text) {
        return None;
    }
    let Ok(digits) = str::from_utf8(text) else {
        return None;
    };
    let Ok(number) = digits.parse::<i128>() else {
        return None;
    };
    Some(number)
}

/// Whether a text is 1 to 38 decimal digits, perhaps after a `-`.
pub(crate) fn is_integer(text: &[u8]) -> bool
    ensures { result ≡ spec.is_integer text.now }
{
    match text {
        [b'-', digits @ ..] => is_natural(digits),
        _ => is_natural(text),
    }
}

/// Whether a text is 1 to 38 decimal digits.
pub(crate) fn is_natural(text: &[u8]) -> bool
    ensures { result ≡ spec.is_natural text.now }
{
    is_numeral(text) && text.len() <= 38
}

fn is_numeral(text: &[u8]) -> bool
    ensures { result ≡ numeral.is_numeral text.now }
{
    if text.is_empty() {
        return false;
    }
    has_only_digits(text)
}

fn has_only_digits(text: &[u8]) -> bool
    ensures { result ≡ list_all is_ascii_digit text.now }
{
    text.iter().all(|byte| byte.is_ascii_digit())
}
