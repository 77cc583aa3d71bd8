ghost use Rattle.std.specs.Prelude.{ℕ, ◌≡◌, ◌≢◌, ◌<◌, ◌+◌, ◌^◌, IfOk, IfErr, Err, length, true};
ghost use Rattle.std.specs.Prelude.{false};
ghost use Rattle.std.specs.Int.{w8, from_be_bytes};
ghost use Rattle.blob_codec.specs.declared.blob_error.BlobError.{BlobError};
ghost use Rattle.blob_codec.specs.Attribute.{is_terminated, without_last};
ghost use Rattle.blob_codec.specs.Blob.{SpellsBlob};
ghost use Rattle.ubus_frames.specs.Fault.{IsMovedFault, moved, place_of};

use blob_codec::{Attr, BlobError, read_blob};
use lanes_scan::first_nul;
use plane_io::Text;
use sqlite_items::Items;
use std::alloc::Global;

/// The text in front of the zero byte that bytes end with.
#[tactic(auto, unfolding(blob_codec::specs::Attribute::without_last))]
pub(crate) fn read_text(alloc: Global, bytes: &[u8], place: usize) -> Result<Text, BlobError>
    ensures found { IfOk result (λ text.
        (is_terminated bytes.now ≡ true) × (text ≡ without_last bytes.now)) }
    ensures refused { (error : BlobError) → result ≡ Err error → error ≢ BlobError.Memory →
        (is_terminated bytes.now ≡ false) × (error ≡ BlobError.NoNul place) }
{
    if !ends_at_nul(bytes) {
        return Err(BlobError::NoNul { at: place });
    }
    let (text, _) = bytes.split_at(bytes.len().saturating_sub(1));
    Ok(Text::from_bytes(alloc, text)?)
}

/// Whether a byte is zero and the first one is the last byte.
#[tactic(auto, unfolding(blob_codec::specs::Attribute::is_terminated))]
fn ends_at_nul(bytes: &[u8]) -> bool
    ensures { result ≡ is_terminated bytes.now }
{
    let last = bytes.len().saturating_sub(1);
    match first_nul(bytes) {
        Some(place) => place == last,
        None => false,
    }
}

/// The number that one byte is.
pub(crate) fn read_byte(bytes: &[u8], place: usize) -> Result<u8, BlobError>
    ensures found { IfOk result (λ byte.
        (length bytes.now ≡ 1) × (byte ≡ from_be_bytes w8 bytes.now)) }
    ensures refused { IfErr result (λ error.
        (length bytes.now ≢ 1) × (error ≡ BlobError.BadLength place)) }
{
    match bytes.as_array::<1>() {
        Some(array) => Ok(u8::from_be_bytes(*array)),
        None => Err(BlobError::BadLength { at: place }),
    }
}

/// Reads a blob that begins at `place` of the frame.
pub(crate) fn read_attrs(
    alloc: Global,
    bytes: &[u8],
    place: usize,
) -> Result<Items<Attr>, BlobError>
    requires { place + length bytes.now < 2 ^ 64 }
    ensures found { IfOk result (λ attrs. SpellsBlob bytes.now attrs) }
    ensures refused { (error : BlobError) → result ≡ Err error → error ≢ BlobError.Memory →
        IsMovedFault place bytes.now error }
{
    match read_blob(alloc, bytes) {
        Ok(attrs) => Ok(attrs),
        Err(error) => Err(move_fault(error, place)),
    }
}

/// The same fault so many places later.
fn move_fault(error: BlobError, by: usize) -> BlobError
    requires { by + place_of error < 2 ^ 64 }
    ensures { result ≡ moved by error }
{
    match error {
        BlobError::Short { at } => BlobError::Short { at: by + at },
        BlobError::BadLength { at } => BlobError::BadLength { at: by + at },
        BlobError::BadType { at } => BlobError::BadType { at: by + at },
        BlobError::Double { at } => BlobError::Double { at: by + at },
        BlobError::NoNul { at } => BlobError::NoNul { at: by + at },
        BlobError::Deep { at } => BlobError::Deep { at: by + at },
        BlobError::Memory => BlobError::Memory,
    }
}
