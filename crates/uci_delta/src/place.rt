ghost use Rattle.std.specs.Prelude.{◌≡◌};
ghost use Rattle.uci_delta.specs.Place as spec;

use std::str;

/// The place that the decimal digits write: a number of 32 bits, perhaps with zeros in front.
pub fn read_place(digits: &[u8]) -> Option<u32>
    ensures { result ≡ spec.place_of digits.now }
{
    // A number for `parse` may begin with a plus.
    if digits.starts_with(b"+") {
        return None;
    }
    let Ok(text) = str::from_utf8(digits) else {
        return None;
    };
    let Ok(place) = text.parse::<u32>() else {
        return None;
    };
    Some(place)
}
