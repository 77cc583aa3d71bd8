ghost use Rattle.std.specs.Prelude.{◌≡◌, ℕ, Bool, map};
ghost use Rattle.std.specs.List.{position_or_len};
ghost use Rattle.std.specs.Simd.Lanes.{mask_l};

use std::simd::prelude::*;

/// How many bytes one load of lanes has.
pub const LANES: usize = 16;

/// A test of bytes: what a search looks for.
pub trait ByteTest {
    ghost finds: { Self → ℕ → Bool };

    /// Whether the byte is looked for.
    fn finds_byte(&self, byte: u8) -> bool
        ensures { result ≡ finds self.now byte };

    /// A bit for each lane, of the first lane the lowest: it is set where the lane's byte is looked
    /// for.
    fn marks(&self, lanes: u8x16) -> u64
        ensures { result ≡ mask_l (map (finds self.now) lanes) };
}

/// The first place of a byte that is looked for, or the length where there is none.
#[inline(always)]
pub fn first_place<T: ByteTest>(test: &T, bytes: &[u8]) -> usize
    ensures { result ≡ position_or_len (T.finds test.now) bytes.now }
{
    let mut at = 0;
    while bytes.len() - at >= LANES {
        let marks = test.marks(u8x16::from_slice(&bytes[at..]));
        if marks != 0 {
            return at + marks.trailing_zeros() as usize;
        }
        at += LANES;
    }
    at + first_by_one(test, &bytes[at..])
}

fn first_by_one<T: ByteTest>(test: &T, bytes: &[u8]) -> usize
    ensures { result ≡ position_or_len (T.finds test.now) bytes.now }
{
    for (place, byte) in bytes.iter().enumerate() {
        if test.finds_byte(*byte) {
            return place;
        }
    }
    bytes.len()
}
