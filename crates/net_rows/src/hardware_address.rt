ghost use Rattle.std.specs.Prelude.{◌≡◌, ◌+◌, ◌<◌, length, IfSome};
ghost use Rattle.net_rows.specs.HardwareAddress as spec;

use kern_model::Mac;

/// A hardware address: six pairs of hexadecimal digits of either case, with `:` between.
pub fn read_mac(text: &[u8]) -> Option<Mac>
    ensures { result ≡ spec.mac_of text.now }
{
    if text.len() != 17 {
        return None;
    }
    if !has_colons(text) {
        return None;
    }
    let Some(first) = octet_at(text, 0) else {
        return None;
    };
    let Some(second) = octet_at(text, 3) else {
        return None;
    };
    let Some(third) = octet_at(text, 6) else {
        return None;
    };
    let Some(fourth) = octet_at(text, 9) else {
        return None;
    };
    let Some(fifth) = octet_at(text, 12) else {
        return None;
    };
    let Some(sixth) = octet_at(text, 15) else {
        return None;
    };
    Some(Mac([first, second, third, fourth, fifth, sixth]))
}

fn has_colons(text: &[u8]) -> bool
    requires { length text.now ≡ 17 }
    ensures { result ≡ spec.has_colons text.now }
{
    text[2] == b':' && text[5] == b':' && text[8] == b':' && text[11] == b':' && text[14] == b':'
}

// The octet that the two hexadecimal digits from a place on are.
fn octet_at(text: &[u8], place: usize) -> Option<u8>
    requires { place + 1 < length text.now }
    ensures { result ≡ spec.octet_at text.now place }
{
    let Some(high) = digit(text[place]) else {
        return None;
    };
    let Some(low) = digit(text[place + 1]) else {
        return None;
    };
    Some(high * 16 + low)
}

fn digit(byte: u8) -> Option<u8>
    ensures value { result ≡ spec.digit_of byte }
    ensures small { IfSome result (λ value. value < 16) }
{
    match byte {
        b'0'..=b'9' => Some(byte - b'0'),
        b'a'..=b'f' => Some(byte - b'a' + 10),
        b'A'..=b'F' => Some(byte - b'A' + 10),
        _ => None,
    }
}
