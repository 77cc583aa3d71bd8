ghost use Rattle.std.specs.Prelude.{◌≡◌, ◌∷◌, [], ◌++◌, ◌+◌, ◌<◌, ◌≤◌, ◌^◌, OnOk, OnErr, length};
ghost use Rattle.std.specs.Prelude.{take, drop};
ghost use Rattle.blob_codec.specs.Limits.{FitsBlob};
ghost use Rattle.blob_codec.specs.Writing.{AllFit, AttrFits, ValueFits, BeginsWith};
ghost use Rattle.blob_codec.specs.Written.{body_of, name_field, padding, word_of, written};
ghost use Rattle.blob_codec.specs.Written.{written_attr};

use crate::attribute::padded_size;
use crate::{Attr, Blob};
use plane_io::Memory;

/// Appends the attributes as a blob: their one spelling whose padding is zero.
///
/// They nest at most 32 levels deep, names and strings have no zero byte, a name is at most 65,535
/// bytes long, and an attribute shorter than 2^24 bytes without its padding.
///
/// # Errors
///
/// Want of memory leaves the bytes as they were.
pub fn write_blob(out: &mut Vec<u8>, attrs: &[Attr]) -> Result<(), Memory>
    requires fits { FitsBlob attrs.now }
    ensures appends { OnOk result (out.new.items ≡ out.old.items ++ written attrs.now) }
    ensures kept { OnErr result (out.new.items ≡ out.old.items) }
{
    let start = out.len();
    if let Err(error) = write_attrs(out, attrs) {
        out.truncate(start);
        return Err(error);
    }
    Ok(())
}

#[cycle(write)]
fn write_attrs(out: &mut Vec<u8>, attrs: &[Attr]) -> Result<(), Memory>
    requires fit { AllFit attrs.now }
    ensures appends { OnOk result (out.new.items ≡ out.old.items ++ written attrs.now) }
    ensures kept { OnErr result (BeginsWith out.new.items out.old.items) }
{
    for attr in attrs {
        write_attr(out, attr)?;
    }
    Ok(())
}

#[cycle(write)]
fn write_attr(out: &mut Vec<u8>, attr: &Attr) -> Result<(), Memory>
    requires fits { AttrFits attr.now }
    ensures appends { OnOk result (out.new.items ≡ out.old.items ++ written_attr attr.now) }
    ensures kept { OnErr result (BeginsWith out.new.items out.old.items) }
{
    let start = out.len();
    write_name(out, attr.name.as_bytes())?;
    write_value(out, &attr.value)?;
    let size = out.len() - start;
    set_word(out, start, type_of(&attr.value), size);
    pad(out, size)
}

#[cycle(write)]
fn write_value(out: &mut Vec<u8>, value: &Blob) -> Result<(), Memory>
    requires fits { ValueFits value.now }
    ensures appends { OnOk result (out.new.items ≡ out.old.items ++ (body_of value.now).bytes) }
    ensures kept { OnErr result (BeginsWith out.new.items out.old.items) }
{
    match value {
        Blob::Unspec => Ok(()),
        Blob::Array(attrs) | Blob::Table(attrs) => write_attrs(out, attrs.as_slice()),
        Blob::Str(text) => write_string(out, text.as_bytes()),
        Blob::I64(number) => write_bytes(out, &number.to_be_bytes()),
        Blob::I32(number) => write_bytes(out, &number.to_be_bytes()),
        Blob::I16(number) => write_bytes(out, &number.to_be_bytes()),
        Blob::I8(number) => write_bytes(out, &number.to_be_bytes()),
    }
}

/// Appends room for the word of an attribute, and the name behind its length.
fn write_name(out: &mut Vec<u8>, name: &[u8]) -> Result<(), Memory>
    requires { length name.now < 2 ^ 16 }
    ensures appends { OnOk result
        (out.new.items ≡ out.old.items ++ (0 ∷ 0 ∷ 0 ∷ 0 ∷ name_field name.now)) }
    ensures kept { OnErr result (BeginsWith out.new.items out.old.items) }
{
    let [high, low] = (name.len() as u16).to_be_bytes();
    write_bytes(out, &[0, 0, 0, 0, high, low])?;
    write_string(out, name)?;
    pad(out, name.len() + 3)
}

/// Appends the text and a zero byte.
fn write_string(out: &mut Vec<u8>, text: &[u8]) -> Result<(), Memory>
    ensures appends { OnOk result (out.new.items ≡ out.old.items ++ (text.now ++ 0 ∷ [])) }
    ensures kept { OnErr result (BeginsWith out.new.items out.old.items) }
{
    out.extend_from_slice(text)?;
    out.push(0)?;
    Ok(())
}

/// Appends zeros up to the next multiple of 4.
fn pad(out: &mut Vec<u8>, size: usize) -> Result<(), Memory>
    requires { size < 2 ^ 32 }
    ensures appends { OnOk result (out.new.items ≡ out.old.items ++ padding size) }
    ensures kept { OnErr result (BeginsWith out.new.items out.old.items) }
{
    let (zeros, _) = [0; 3].split_at(padded_size(size) - size);
    write_bytes(out, zeros)
}

fn write_bytes(out: &mut Vec<u8>, bytes: &[u8]) -> Result<(), Memory>
    ensures appends { OnOk result (out.new.items ≡ out.old.items ++ bytes.now) }
    ensures kept { OnErr result (BeginsWith out.new.items out.old.items) }
{
    out.extend_from_slice(bytes)?;
    Ok(())
}

/// Writes the word of the attribute that begins at `start` into the room for it.
fn set_word(out: &mut Vec<u8>, start: usize, kind: u8, size: usize)
    requires room { start + 4 ≤ length out.old.items }
    requires known { kind < 128 }
    requires size { size < 2 ^ 24 }
    ensures { out.new.items
        ≡ take start out.old.items ++ (word_of kind size ++ drop (start + 4) out.old.items) }
{
    let word = 0x8000_0000 + u32::from(kind) * 0x100_0000 + size as u32;
    let [first, second, third, fourth] = word.to_be_bytes();
    out[start] = first;
    out[start + 1] = second;
    out[start + 2] = third;
    out[start + 3] = fourth;
}

/// The number of the type of a value.
fn type_of(value: &Blob) -> u8
    ensures number { result ≡ (body_of value.now).type }
    ensures known { result < 128 }
{
    match value {
        Blob::Unspec => 0,
        Blob::Array(_) => 1,
        Blob::Table(_) => 2,
        Blob::Str(_) => 3,
        Blob::I64(_) => 4,
        Blob::I32(_) => 5,
        Blob::I16(_) => 6,
        Blob::I8(_) => 7,
    }
}
