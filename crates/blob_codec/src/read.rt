ghost use Rattle.std.specs.Prelude.{ℕ, ◌≡◌, ◌≢◌, ◌<◌, ◌≤◌, ◌+◌, ◌^◌, List, IfOk, Err, length};
ghost use Rattle.blob_codec.specs.declared.blob.Attr.{Attr};
ghost use Rattle.blob_codec.specs.declared.blob_error.BlobError.{BlobError};
ghost use Rattle.blob_codec.specs.Blob.{Spells, SpellsValue, SpellsBlob};
ghost use Rattle.blob_codec.specs.Fault.{IsFirstFault, IsBlobFault};
ghost use Rattle.blob_codec.specs.Found.{IsInnerFault, IsValueFault, SpellsDeeper};

use crate::attribute::split_attribute;
use crate::leaf::read_leaf;
use crate::{Attr, Blob, BlobError, MOST_LEVELS};
use plane_io::Text;
use sqlite_items::Items;
use std::alloc::Global;

/// Reads a blob: a list of attributes, each with a name and a typed value, and padded to a multiple
/// of 4 bytes.
///
/// An attribute is a number of four bytes, the highest byte first, and data. The number is a set
/// bit, seven bits of type, and 24 bits of length: that of the whole without padding. The data are
/// the length of the name in two bytes, the name, a zero byte, padding to a multiple of 4, and the
/// value. Padding may hold any bytes, and is there behind the last attribute too. The type is 0 for
/// nothing, 1 for an array, 2 for a table, 3 for a string with a zero byte at its end alone, 4 to 7
/// for signed numbers of 8, 4, 2 and 1 bytes, the highest byte first, and 8 for a double.
///
/// # Errors
///
/// The first fault, with the place of its attribute's first byte. Attributes are tested from front
/// to back, each before those inside it, by these tests in their order. `Short`: it passes the end.
/// `BadLength`: its length is below 4. `BadType`: the first bit is not set, or the type is above 8.
/// `Double`: the type is 8. `BadLength`: the name leaves no room, or its first zero byte is not
/// behind it; or the value has another size than its type. `NoNul`: a string's first zero byte is
/// not its last. `Deep`: it is an array or a table within 32 others. `Memory` where there was not
/// enough memory.
pub fn read_blob(alloc: Global, bytes: &[u8]) -> Result<Items<Attr>, BlobError>
    ensures found { IfOk result (λ attrs. SpellsBlob bytes.now attrs) }
    ensures only { IfOk result (λ attrs.
        (others : List Attr) → SpellsBlob bytes.now others → others ≡ attrs) }
    ensures refused { (error : BlobError) → result ≡ Err error → error ≢ BlobError.Memory →
        IsBlobFault bytes.now error }
{
    read_attrs(alloc, bytes, 0, MOST_LEVELS)
}

#[cycle(read)]
fn read_attrs(
    alloc: Global,
    bytes: &[u8],
    place: usize,
    levels: u8,
) -> Result<Items<Attr>, BlobError>
    requires { place + length bytes.now < 2 ^ 64 }
    ensures found { IfOk result (λ attrs. Spells levels bytes.now attrs) }
    ensures refused { (error : BlobError) → result ≡ Err error → error ≢ BlobError.Memory →
        IsFirstFault levels place bytes.now error }
{
    let mut attrs = Items::new(alloc);
    let (mut rest, mut at) = (bytes, place);
    while !rest.is_empty() {
        let parts = split_attribute(rest, at)?;
        let inner = at + parts.value_place;
        let value = read_value(alloc, parts.kind, parts.value, at, inner, levels)?;
        let name = Text::from_bytes(alloc, parts.name)?;
        attrs.push(Attr { name, value })?;
        at += parts.size;
        rest = parts.behind;
    }
    Ok(attrs)
}

/// `place` is that of the attribute in the whole, `inner` that of its value.
#[cycle(read)]
fn read_value(
    alloc: Global,
    kind: u8,
    bytes: &[u8],
    place: usize,
    inner: usize,
    levels: u8,
) -> Result<Blob, BlobError>
    requires known { kind ≤ 7 }
    requires room { inner + length bytes.now < 2 ^ 64 }
    ensures found { IfOk result (λ value. SpellsValue levels kind bytes.now value) }
    ensures refused { (error : BlobError) → result ≡ Err error → error ≢ BlobError.Memory →
        IsValueFault levels place inner kind bytes.now error }
{
    match kind {
        1 => Ok(Blob::Array(read_inner(alloc, bytes, place, inner, levels)?)),
        2 => Ok(Blob::Table(read_inner(alloc, bytes, place, inner, levels)?)),
        _ => read_leaf(alloc, kind, bytes, place),
    }
}

#[cycle(read)]
fn read_inner(
    alloc: Global,
    bytes: &[u8],
    place: usize,
    inner: usize,
    levels: u8,
) -> Result<Items<Attr>, BlobError>
    requires room { inner + length bytes.now < 2 ^ 64 }
    ensures found { IfOk result (λ attrs. SpellsDeeper levels bytes.now attrs) }
    ensures refused { (error : BlobError) → result ≡ Err error → error ≢ BlobError.Memory →
        IsInnerFault levels place inner bytes.now error }
{
    if levels == 0 {
        return Err(BlobError::Deep { at: place });
    }
    read_attrs(alloc, bytes, inner, levels - 1)
}
