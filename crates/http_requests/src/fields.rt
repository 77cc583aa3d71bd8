ghost use Rattle.std.specs.Prelude.{◌≡◌, [], ◌≤◌, Bool, length, map, codes, All};
ghost use Rattle.std.specs.List.{list_all, list_any};
ghost use Rattle.std.specs.Char.{is_ascii_digit};
ghost use Rattle.httparse.specs.Spans.{IsHeaderWithin, header_bytes};
ghost use Rattle.http_requests.specs.Fields as spec;
ghost use Rattle.http_requests.specs.Found.{IsFound};

use httparse::spans::HeaderSpan;
use std::str;

/// The most digits of a `Content-Length`. A number of so many has 64 bits.
const MOST_DIGITS: usize = 19;

/// The values of the fields of a name.
#[derive(Clone, Copy)]
enum Found<'a> {
    Nothing,
    One(&'a [u8]),
    Several,
}

/// The length of the body: none where a transfer coding is stated, or not one length of at most 19
/// digits.
pub(crate) fn body_length(buf: &[u8], headers: &[HeaderSpan]) -> Option<u64>
    requires { All (IsHeaderWithin (length buf.now)) headers.now }
    ensures { result ≡ spec.body_length (map (header_bytes buf.now) headers.now) }
{
    match find_values(buf, headers, b"transfer-encoding") {
        Found::Nothing => {}
        Found::One(_) => return None,
        Found::Several => return None,
    }
    match find_values(buf, headers, b"content-length") {
        Found::Nothing => None,
        Found::One(value) => read_length(value),
        Found::Several => None,
    }
}

/// Whether a field asks that the connection be closed.
pub(crate) fn asks_for_close(buf: &[u8], headers: &[HeaderSpan]) -> bool
    requires { All (IsHeaderWithin (length buf.now)) headers.now }
    ensures { result ≡ spec.asks_for_close (map (header_bytes buf.now) headers.now) }
{
    for header in headers {
        if is_same(header.name.of(buf), b"connection") {
            if is_same(header.value.of(buf), b"close") {
                return true;
            }
        }
    }
    false
}

/// The values of the fields of this name.
fn find_values<'a>(buf: &'a [u8], headers: &[HeaderSpan], name: &[u8]) -> Found<'a>
    requires { All (IsHeaderWithin (length buf.now)) headers.now }
    ensures { IsFound (spec.values_of name.now (map (header_bytes buf.now) headers.now)) result [] }
{
    let mut found = Found::Nothing;
    for header in headers {
        if is_same(header.name.of(buf), name) {
            found = match found {
                Found::Nothing => Found::One(header.value.of(buf)),
                Found::One(_) | Found::Several => Found::Several,
            };
        }
    }
    found
}

/// Whether the texts differ in the case of ASCII letters at most.
fn is_same(one: &[u8], other: &[u8]) -> bool
    ensures { result ≡ spec.same_without_case one.now other.now }
{
    one.eq_ignore_ascii_case(other)
}

/// The number that 1 to 19 decimal digits are.
fn read_length(text: &[u8]) -> Option<u64>
    ensures { result ≡ spec.length_of text.now }
{
    if !is_length(text) {
        return None;
    }
    let Ok(digits) = str::from_utf8(text) else {
        return None;
    };
    let Ok(number) = digits.parse::<u64>() else {
        return None;
    };
    Some(number)
}

fn is_length(text: &[u8]) -> bool
    ensures { result ≡ spec.is_length text.now }
{
    if text.is_empty() {
        return false;
    }
    if text.len() > MOST_DIGITS {
        return false;
    }
    has_only_digits(text)
}

fn has_only_digits(text: &[u8]) -> bool
    ensures { result ≡ list_all is_ascii_digit text.now }
{
    text.iter().all(|byte| byte.is_ascii_digit())
}
