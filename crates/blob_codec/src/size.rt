ghost use Rattle.std.specs.Prelude.{◌≡◌, ◌<◌, ◌+◌, ◌-◌, ◌^◌, MatchOption, IfSome, IfNone, length};
ghost use Rattle.std.specs.Prelude.{min};
ghost use Rattle.blob_codec.specs.Limits.{Fits, FitsBlob, FitsValue, HasNoNul};
ghost use Rattle.blob_codec.specs.Writing.{AttrFitsAt, FitDeeper};
ghost use Rattle.blob_codec.specs.Written.{body_of, size_of, written};

use crate::attribute::padded_size;
use crate::{Attr, Blob, MOST_LEVELS};
use lanes_scan::first_nul;

/// How many bytes the attributes take as a blob, where they have a spelling: where `write_blob` may
/// be called. It takes no memory.
pub fn blob_size(attrs: &[Attr]) -> Option<usize>
    ensures fits { IfSome result (λ size. FitsBlob attrs.now) }
    ensures size { IfSome result (λ size. size ≡ min (length (written attrs.now)) (2 ^ 64 - 1)) }
    ensures unfit { IfNone result (FitsBlob attrs.now → ⊥) }
{
    attrs_size(attrs, MOST_LEVELS)
}

#[cycle(size)]
fn attrs_size(attrs: &[Attr], levels: u8) -> Option<usize>
    ensures { MatchOption result (Fits levels attrs.now → ⊥) (λ size.
        Fits levels attrs.now × (size ≡ min (length (written attrs.now)) (2 ^ 64 - 1))) }
{
    let mut total: usize = 0;
    for attr in attrs {
        let Some(size) = attr_size(attr, levels) else {
            return None;
        };
        total = total.saturating_add(padded_size(size));
    }
    Some(total)
}

/// How long an attribute is without its padding.
#[cycle(size)]
fn attr_size(attr: &Attr, levels: u8) -> Option<usize>
    ensures { MatchOption result (AttrFitsAt levels attr.now → ⊥) (λ size.
        AttrFitsAt levels attr.now × (size < 2 ^ 24)
        × (size ≡ size_of attr.now.name (body_of attr.now.value).bytes)) }
{
    let name = attr.name.as_bytes();
    if name.len() > 0xffff {
        return None;
    }
    if first_nul(name).is_some() {
        return None;
    }
    let Some(value) = value_size(&attr.value, levels) else {
        return None;
    };
    let size = value.saturating_add(4 + padded_size(name.len() + 3));
    if size < 0x100_0000 { Some(size) } else { None }
}

#[cycle(size)]
fn value_size(value: &Blob, levels: u8) -> Option<usize>
    ensures { MatchOption result (FitsValue levels value.now → ⊥) (λ size.
        FitsValue levels value.now
        × (size ≡ min (length (body_of value.now).bytes) (2 ^ 64 - 1))) }
{
    match value {
        Blob::Unspec => Some(0),
        Blob::Array(attrs) => inner_size(attrs.as_slice(), levels),
        Blob::Table(attrs) => inner_size(attrs.as_slice(), levels),
        Blob::Str(text) => string_size(text.as_bytes()),
        Blob::I64(number) => Some(copied(number).to_be_bytes().len()),
        Blob::I32(number) => Some(copied(number).to_be_bytes().len()),
        Blob::I16(number) => Some(copied(number).to_be_bytes().len()),
        Blob::I8(number) => Some(copied(number).to_be_bytes().len()),
    }
}

#[cycle(size)]
fn inner_size(attrs: &[Attr], levels: u8) -> Option<usize>
    ensures { MatchOption result (FitDeeper levels attrs.now → ⊥) (λ size.
        FitDeeper levels attrs.now × (size ≡ min (length (written attrs.now)) (2 ^ 64 - 1))) }
{
    if levels == 0 {
        return None;
    }
    attrs_size(attrs, levels - 1)
}

fn string_size(text: &[u8]) -> Option<usize>
    ensures { MatchOption result (HasNoNul text.now → ⊥) (λ size.
        HasNoNul text.now × (size ≡ min (length text.now + 1) (2 ^ 64 - 1))) }
{
    if first_nul(text).is_some() {
        return None;
    }
    Some(text.len().saturating_add(1))
}

/// The number itself, of which a caller then knows that it is in the range of its type.
fn copied<T: Copy>(number: &T) -> T
    ensures { result ≡ number.now }
{
    *number
}
