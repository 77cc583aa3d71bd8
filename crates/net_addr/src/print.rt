ghost use Rattle.std.specs.Prelude.{◌≡◌, ◌+◌, ◌*◌, ◌<◌, ◌≤◌, ◌++◌, codes, decimal, drop, length};
ghost use Rattle.std.specs.Prelude.{take};
ghost use Rattle.std.specs.Char.{digit_char};
ghost use Rattle.std.specs.Net.Text as Text;
ghost use Rattle.net_addr.specs.Printed.{addr_text, cidr_text, v4_text, v6_text};
ghost use Rattle.net_addr.specs.Appended.{Appends};

use crate::address::{Addr, V4, V6};
use crate::prefix::Cidr;
use itoa::Buffer;
use std::net::Ipv6Addr;

/// Prints an address in its one form, and returns how many bytes that is.
/// The bytes after them stay as they are.
///
/// An IPv4 address is in dotted decimal. An IPv6 address is eight groups in lower-case hex, with
/// the longest run of two or more zero groups as `::`, and of two such runs the first (RFC 5952,
/// section 4). An IPv4-mapped address is in hex groups too, as `::ffff:102:304`.
pub fn print_addr(addr: Addr, into: &mut [u8; 64]) -> usize
    ensures written { take result into.new ≡ addr_text addr }
    ensures fits { result ≤ 39 }
    ensures behind { drop result into.new ≡ drop result into.old }
{
    append_addr(into, addr)
}

/// Prints a prefix as its address, `/` and its length in decimal, and returns how many bytes that
/// is. The bytes after them stay as they are.
pub fn print_cidr(cidr: Cidr, into: &mut [u8; 64]) -> usize
    ensures written { take result into.new ≡ cidr_text cidr }
    ensures fits { result ≤ 43 }
    ensures behind { drop result into.new ≡ drop result into.old }
{
    let address = append_addr(into, cidr.addr);
    let slash = append(into, address, b"/");
    append_decimal(into, slash, cidr.length)
}

fn append_addr(into: &mut [u8; 64], addr: Addr) -> usize
    ensures text { Appends into.old 0 (addr_text addr) into.new result }
    ensures fits { result ≤ 39 }
{
    match addr {
        Addr::V4(v4) => append_v4(into, 0, v4),
        Addr::V6(v6) => append_v6(into, 0, v6),
    }
}

fn append_v4(into: &mut [u8; 64], at: usize, address: V4) -> usize
    requires { at ≤ 49 }
    ensures text { Appends into.old at (v4_text address.0) into.new result }
    ensures fits { result ≤ at + 15 }
{
    let [a, b, c, d] = address.0;
    let end = append_decimal(into, at, a);
    let end = append_after_dot(into, end, b);
    let end = append_after_dot(into, end, c);
    append_after_dot(into, end, d)
}

fn append_v6(into: &mut [u8; 64], at: usize, address: V6) -> usize
    requires { at ≤ 23 }
    ensures text { Appends into.old at (v6_text address.0) into.new result }
    ensures fits { result ≤ at + 39 }
{
    let all = Ipv6Addr::from_octets(address.0).segments();
    let groups = &all[..];
    let (start, length) = longest_zero_run(groups);
    if length < 2 {
        return append_groups(into, at, groups);
    }
    let end = append_groups(into, at, &groups[..start]);
    let end = append(into, end, b"::");
    append_groups(into, end, &groups[start + length..])
}

// The start and the length of the longest run of zeros, and of two as long the first.
fn longest_zero_run(groups: &[u16]) -> (usize, usize)
    ensures value { result ≡ Text.longest_zero_run groups.now }
    ensures within { result.0 + result.1 ≤ length groups.now }
{
    let mut start = groups.len();
    let mut length = 0;
    let mut run = 0;
    for i in (0..groups.len()).rev() {
        run = if groups[i] == 0 { run + 1 } else { 0 };
        if run >= length {
            start = i;
            length = run;
        }
    }
    (start, length)
}

// Groups with colons between them.
fn append_groups(into: &mut [u8; 64], at: usize, groups: &[u16]) -> usize
    requires { at + 5 * length groups.now ≤ 64 }
    ensures text { Appends into.old at (Text.groups_text groups.now) into.new result }
    ensures fits { result ≤ at + 5 * length groups.now }
{
    let [first, rest @ ..] = groups else {
        return at;
    };
    let mut end = append_hex(into, at, *first);
    for group in rest {
        end = append(into, end, b":");
        end = append_hex(into, end, *group);
    }
    end
}

fn append_hex(into: &mut [u8; 64], at: usize, group: u16) -> usize
    requires { at ≤ 60 }
    ensures text { Appends into.old at (Text.hex group) into.new result }
    ensures fits { result ≤ at + 4 }
{
    let digits = [
        hex_digit((group / 0x1000) as u8),
        hex_digit((group / 0x100 % 16) as u8),
        hex_digit((group / 0x10 % 16) as u8),
        hex_digit((group % 16) as u8),
    ];
    append(into, at, &digits[leading_zero_digits(group)..])
}

/// A hexadecimal digit in lower case.
pub fn hex_digit(value: u8) -> u8
    requires { value < 16 }
    ensures { result ≡ digit_char value }
{
    if value < 10 {
        b'0' + value
    } else {
        b'a' + (value - 10)
    }
}

fn leading_zero_digits(group: u16) -> usize
    ensures value { result ≡ Text.leading_zero_digits group }
    ensures within { result < 4 }
{
    match group {
        0x1000.. => 0,
        0x100.. => 1,
        0x10.. => 2,
        _ => 3,
    }
}

fn append_after_dot(into: &mut [u8; 64], at: usize, number: u8) -> usize
    requires { at ≤ 60 }
    ensures text { Appends into.old at (codes "." ++ decimal number) into.new result }
    ensures fits { result ≤ at + 4 }
{
    let end = append(into, at, b".");
    append_decimal(into, end, number)
}

fn append_decimal(into: &mut [u8; 64], at: usize, number: u8) -> usize
    requires { at ≤ 61 }
    ensures text { Appends into.old at (decimal number) into.new result }
    ensures fits { result ≤ at + 3 }
{
    let mut digits = Buffer::new();
    append(into, at, digits.format(number).as_bytes())
}

fn append(into: &mut [u8; 64], at: usize, text: &[u8]) -> usize
    requires { at + length text.now ≤ 64 }
    ensures { Appends into.old at text.now into.new result }
{
    let end = at + text.len();
    into[at..end].copy_from_slice(text);
    end
}
