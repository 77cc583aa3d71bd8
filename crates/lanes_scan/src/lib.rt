//! Scans of bytes that look at a load of vector lanes at a time, and at the bytes behind the last
//! whole load one by one.
//!
//! Each scan gives the answer of its plain definition at every length. None takes memory.
#![tactic(auto)]

ghost use Rattle.std.specs.Prelude.{◌≡◌, position};
ghost use Rattle.std.specs.List.{prefix_len, list_all};
ghost use Rattle.lanes_scan.specs.ByteTest.{is_plain, is_nul, is_name_byte, is_printable_byte};

mod byte_test;
mod search;
#[cfg(test)]
mod tests;

use byte_test::{NotName, NotPrintable, Nul, Stop};
use search::first_place;

/// The length of the longest prefix that has none of the stops: the place of the first stop, or the
/// length where there is none. Who has fewer than sixteen stops repeats one.
// Inlined, so that stops which are constants make a test of their own.
#[inline(always)]
pub fn plain_run(bytes: &[u8], stops: &[u8; 16]) -> usize
    ensures { result ≡ prefix_len (is_plain stops.now) bytes.now }
{
    first_place(&Stop { stops }, bytes)
}

/// The place of the first zero byte.
pub fn first_nul(bytes: &[u8]) -> Option<usize>
    ensures { result ≡ position is_nul bytes.now }
{
    let place = first_place(&Nul, bytes);
    if place < bytes.len() {
        Some(place)
    } else {
        None
    }
}

/// Whether every byte is an ASCII letter, a digit or `_`. So it is where there is no byte.
pub fn all_name(bytes: &[u8]) -> bool
    ensures { result ≡ list_all is_name_byte bytes.now }
{
    first_place(&NotName, bytes) == bytes.len()
}

/// Whether every byte is from 33 to 126. So it is where there is no byte.
pub fn all_printable(bytes: &[u8]) -> bool
    ensures { result ≡ list_all is_printable_byte bytes.now }
{
    first_place(&NotPrintable, bytes) == bytes.len()
}
