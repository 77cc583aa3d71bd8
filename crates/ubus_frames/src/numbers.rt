ghost use Rattle.std.specs.Prelude.{ℕ, ◌≡◌, ◌≢◌, ◌<◌, ◌+◌, ◌^◌, IfOk, IfErr, Err, length};
ghost use Rattle.std.specs.Int.{w32, from_be_bytes};
ghost use Rattle.blob_codec.specs.declared.blob_error.BlobError.{BlobError};
ghost use Rattle.ubus_frames.specs.Found.{HasNumber};
ghost use Rattle.ubus_frames.specs.Numbers.{IsNumberFault, SpellsNumbers, IsNumbersFault};

use crate::field::split_field;
use blob_codec::BlobError;
use sqlite_items::Items;
use std::alloc::Global;

/// Reads numbers, attributes with the id 0 and four bytes each. `place` is that of the first byte
/// in the frame.
pub(crate) fn read_numbers(
    alloc: Global,
    bytes: &[u8],
    place: usize,
) -> Result<Items<u32>, BlobError>
    requires { place + length bytes.now < 2 ^ 64 }
    ensures found { IfOk result (λ numbers. SpellsNumbers bytes.now numbers) }
    ensures refused { (error : BlobError) → result ≡ Err error → error ≢ BlobError.Memory →
        IsNumbersFault place bytes.now error }
{
    let mut numbers = Items::new(alloc);
    let (mut rest, mut at) = (bytes, place);
    while !rest.is_empty() {
        let front = read_number(rest, at)?;
        numbers.push(front.number)?;
        at += front.size;
        rest = front.behind;
    }
    Ok(numbers)
}

/// A number, how many bytes its attribute takes, and what is behind it.
#[derive(Clone, Copy)]
pub(crate) struct Front<'a> {
    pub number: u32,
    pub size: usize,
    pub behind: &'a [u8],
}

fn read_number(bytes: &[u8], place: usize) -> Result<Front<'_>, BlobError>
    ensures found { IfOk result (λ front. HasNumber bytes.now front) }
    ensures refused { (error : BlobError) → result ≡ Err error
        → IsNumberFault place bytes.now error }
{
    let parts = split_field(bytes, place)?;
    if parts.flag != 0 {
        return Err(BlobError::BadType { at: place });
    }
    if parts.id != 0 {
        return Err(BlobError::BadType { at: place });
    }
    let number = read_u32(parts.data, place)?;
    Ok(Front {
        number,
        size: parts.size,
        behind: parts.behind,
    })
}

/// The number that four bytes are, the highest byte first.
pub(crate) fn read_u32(bytes: &[u8], place: usize) -> Result<u32, BlobError>
    ensures found { IfOk result (λ number.
        (length bytes.now ≡ 4) × (number ≡ from_be_bytes w32 bytes.now)) }
    ensures refused { IfErr result (λ error.
        (length bytes.now ≢ 4) × (error ≡ BlobError.BadLength place)) }
{
    match bytes.as_array::<4>() {
        Some(array) => Ok(u32::from_be_bytes(*array)),
        None => Err(BlobError::BadLength { at: place }),
    }
}
