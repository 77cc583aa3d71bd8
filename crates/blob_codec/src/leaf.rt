ghost use Rattle.std.specs.Prelude.{◌≡◌, ◌≢◌, ◌≤◌, IfOk, IfErr, Err, Some, length, true, false};
ghost use Rattle.blob_codec.specs.declared.blob_error.BlobError.{BlobError};
ghost use Rattle.blob_codec.specs.Attribute.{is_terminated, without_last};
ghost use Rattle.blob_codec.specs.Blob.{IsLeaf};
ghost use Rattle.blob_codec.specs.Fault.{first_held, value_tests, is_nested};

use crate::nul::ends_at_nul;
use crate::{Blob, BlobError};
use plane_io::Text;
use std::alloc::Global;

/// Reads a value that holds no attributes. `place` is that of its attribute in the whole.
pub(crate) fn read_leaf(
    alloc: Global,
    kind: u8,
    bytes: &[u8],
    place: usize,
) -> Result<Blob, BlobError>
    requires known { kind ≤ 7 }
    requires leaf { is_nested kind ≡ false }
    ensures found { IfOk result (λ value. IsLeaf kind bytes.now value) }
    ensures refused { (error : BlobError) → result ≡ Err error → error ≢ BlobError.Memory →
        first_held (value_tests place kind bytes.now) ≡ Some error }
{
    match kind {
        0 => {
            let _: [u8; 0] = read_array(bytes, place)?;
            Ok(Blob::Unspec)
        }
        3 => Ok(Blob::Str(read_string(alloc, bytes, place)?)),
        4 => Ok(Blob::I64(i64::from_be_bytes(read_array(bytes, place)?))),
        5 => Ok(Blob::I32(i32::from_be_bytes(read_array(bytes, place)?))),
        6 => Ok(Blob::I16(i16::from_be_bytes(read_array(bytes, place)?))),
        _ => Ok(Blob::I8(i8::from_be_bytes(read_array(bytes, place)?))),
    }
}

#[tactic(auto, unfolding(crate::specs::Attribute::without_last))]
fn read_string(alloc: Global, bytes: &[u8], place: usize) -> Result<Text, BlobError>
    ensures found { IfOk result (λ text.
        (is_terminated bytes.now ≡ true) × (text ≡ without_last bytes.now)) }
    ensures refused { (error : BlobError) → result ≡ Err error → error ≢ BlobError.Memory →
        (is_terminated bytes.now ≡ false) × (error ≡ BlobError.NoNul place) }
{
    if !ends_at_nul(bytes) {
        return Err(BlobError::NoNul { at: place });
    }
    let (text, _) = bytes.split_at(bytes.len().saturating_sub(1));
    Ok(Text::from_bytes(alloc, text)?)
}

fn read_array<const N: usize>(bytes: &[u8], place: usize) -> Result<[u8; N], BlobError>
    ensures found { IfOk result (λ array. (array ≡ bytes.now) × (length bytes.now ≡ N)) }
    ensures refused { IfErr result (λ error.
        (length bytes.now ≢ N) × (error ≡ BlobError.BadLength place)) }
{
    match bytes.as_array::<N>() {
        Some(array) => Ok(*array),
        None => Err(BlobError::BadLength { at: place }),
    }
}
