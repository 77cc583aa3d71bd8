ghost use Rattle.std.specs.Prelude.{◌≡◌, map, not};
ghost use Rattle.std.specs.Simd.Lanes.{mask_l};
ghost use Rattle.lanes_scan.specs.ByteTest.{is_stop, is_nul, is_name_byte, is_printable_byte};

use crate::search::ByteTest;
use std::simd::prelude::*;

/// One of the stops.
#[derive(Drop)]
pub struct Stop<'a> {
    pub stops: &'a [u8; 16],
}

impl<'a> ByteTest for Stop<'a> {
    ghost finds = { λ test. is_stop test.stops.now };

    fn finds_byte(&self, byte: u8) -> bool {
        let stops = self.stops;
        stops.contains(&byte)
    }

    #[inline(always)]
    fn marks(&self, lanes: u8x16) -> u64 {
        let stops = self.stops;
        stop_marks(stops, lanes)
    }
}

#[inline(always)]
fn stop_marks(stops: &[u8; 16], lanes: u8x16) -> u64
    ensures { result ≡ mask_l (map (is_stop stops.now) lanes) }
{
    let mut found = mask8x16::splat(false);
    for stop in stops {
        found = found | lanes.simd_eq(u8x16::splat(*stop));
    }
    found.to_bitmask()
}

/// A zero byte.
#[derive(Drop)]
pub struct Nul;

impl ByteTest for Nul {
    ghost finds = { λ _. is_nul };

    fn finds_byte(&self, byte: u8) -> bool {
        byte == 0
    }

    #[inline(always)]
    fn marks(&self, lanes: u8x16) -> u64 {
        lanes.simd_eq(u8x16::splat(0)).to_bitmask()
    }
}

/// A byte that is no letter, digit or `_`.
#[derive(Drop)]
pub struct NotName;

impl ByteTest for NotName {
    ghost finds = { λ _ byte. not (is_name_byte byte) };

    fn finds_byte(&self, byte: u8) -> bool {
        !byte.is_ascii_alphanumeric() && byte != b'_'
    }

    #[inline(always)]
    fn marks(&self, lanes: u8x16) -> u64 {
        let letter = (lanes | u8x16::splat(0x20)) - u8x16::splat(b'a');
        let digit = lanes - u8x16::splat(b'0');
        let other = letter.simd_ge(u8x16::splat(26)) & digit.simd_ge(u8x16::splat(10));
        (other & lanes.simd_ne(u8x16::splat(b'_'))).to_bitmask()
    }
}

/// A byte below 33 or above 126.
#[derive(Drop)]
pub struct NotPrintable;

impl ByteTest for NotPrintable {
    ghost finds = { λ _ byte. not (is_printable_byte byte) };

    fn finds_byte(&self, byte: u8) -> bool {
        !byte.is_ascii_graphic()
    }

    #[inline(always)]
    fn marks(&self, lanes: u8x16) -> u64 {
        let behind = lanes - u8x16::splat(33);
        behind.simd_ge(u8x16::splat(94)).to_bitmask()
    }
}
