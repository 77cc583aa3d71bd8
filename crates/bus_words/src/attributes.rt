use blob_codec::{Attr, Blob};
use blob_json::{blob_of_json, json_of_blob};
use serde_json::Value;
use sqlite_items::Items;
use std::alloc::Global;

/// The attributes of a JSON object.
///
/// # Errors
///
/// Where the text is no JSON, or has no attributes, or memory lacks.
pub fn attributes_of(alloc: Global, json: &str) -> anyhow::Result<Items<Attr>> {
    let value = Value::from_str(alloc, json)?;
    Ok(blob_of_json(alloc, &value)?)
}

/// Puts the attributes as a JSON object behind the bytes.
///
/// # Errors
///
/// Want of memory.
pub fn put_json(alloc: Global, out: &mut Vec<u8>, attrs: &[Attr]) -> anyhow::Result<()> {
    let json = json_of_blob(alloc, attrs)?.to_string(alloc)?;
    out.extend_from_slice(json.as_bytes())?;
    Ok(())
}

/// Puts the attributes in their order behind the bytes, each with its name, `=`, its value with its
/// type, and a blank.
///
/// # Errors
///
/// Want of memory.
#[cycle(put)]
pub fn put_attributes(out: &mut Vec<u8>, attrs: &[Attr]) -> anyhow::Result<()> {
    for attr in attrs {
        out.extend_from_slice(attr.name.as_bytes())?;
        out.push(b'=')?;
        put_value(out, &attr.value)?;
        out.push(b' ')?;
    }
    Ok(())
}

#[cycle(put)]
fn put_value(out: &mut Vec<u8>, value: &Blob) -> anyhow::Result<()> {
    match value {
        Blob::Unspec => out.extend_from_slice(b"nothing")?,
        Blob::Array(attrs) => {
            out.extend_from_slice(b"[ ")?;
            put_attributes(out, attrs.as_slice())?;
            out.push(b']')?;
        }
        Blob::Table(attrs) => {
            out.extend_from_slice(b"{ ")?;
            put_attributes(out, attrs.as_slice())?;
            out.push(b'}')?;
        }
        Blob::Str(text) => {
            out.push(b'\'')?;
            out.extend_from_slice(text.as_bytes())?;
            out.push(b'\'')?;
        }
        Blob::I64(number) => put_number(out, *number, b"int64")?,
        Blob::I32(number) => put_number(out, i64::from(*number), b"int32")?,
        Blob::I16(number) => put_number(out, i64::from(*number), b"int16")?,
        Blob::I8(number) => put_number(out, i64::from(*number), b"int8")?,
    }
    Ok(())
}

fn put_number(out: &mut Vec<u8>, number: i64, kind: &[u8]) -> anyhow::Result<()> {
    let text = format!(in *out.allocator(); "{number}:")?;
    out.extend_from_slice(text.as_bytes())?;
    out.extend_from_slice(kind)?;
    Ok(())
}
