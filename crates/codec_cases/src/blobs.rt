use blob_codec::{Attr, Blob, BlobError, blob_size, json_text, read_blob, write_blob};
use blob_json::{JsonError, blob_of_json};
use bus_words::{put_attributes, put_json};
use plane_io::Text;
use serde_json::Value;
use sqlite_items::Items;
use std::alloc::Global;
use std::fmt::Write;

/// Reads a blob, and puts its attributes or its fault.
pub(crate) fn put_blob(alloc: Global, input: &[u8], out: &mut Vec<u8>) -> anyhow::Result<()> {
    match read_blob(alloc, input) {
        Ok(attrs) => put_all(alloc, attrs.as_slice(), out),
        Err(error) => put_fault(alloc, &error, out),
    }
}

/// Puts how many attributes there are, and a line for each.
fn put_all(alloc: Global, attrs: &[Attr], out: &mut Vec<u8>) -> anyhow::Result<()> {
    let count = format!(in alloc; "{} attributes\n", attrs.len())?;
    out.extend_from_slice(count.as_bytes())?;
    for attr in attrs {
        put_attributes(out, std::slice::from_ref(attr))?;
        out.push(b'\n')?;
    }
    Ok(())
}

fn put_fault(alloc: Global, error: &BlobError, out: &mut Vec<u8>) -> anyhow::Result<()> {
    let told = format!(in alloc; "error {} {error}\n", error.number())?;
    out.extend_from_slice(told.as_bytes())?;
    Ok(())
}

/// Reads a blob, and puts what is written of it, and how many bytes it is said to take.
pub(crate) fn rewrite(alloc: Global, input: &[u8], out: &mut Vec<u8>) -> anyhow::Result<()> {
    let attrs = match read_blob(alloc, input) {
        Ok(attrs) => attrs,
        Err(error) => return put_fault(alloc, &error, out),
    };
    let size = blob_size(attrs.as_slice());
    if size.is_some() {
        write_blob(out, attrs.as_slice())?;
    }
    tell_size(alloc, size, out)
}

fn tell_size(alloc: Global, size: Option<usize>, out: &mut Vec<u8>) -> anyhow::Result<()> {
    let mut told = String::new(alloc);
    match size {
        Some(size) => writeln!(told, "size {size}")?,
        None => writeln!(told, "no spelling")?,
    }
    out.extend_from_slice(told.as_bytes())?;
    Ok(())
}

/// Reads a blob, and puts its JSON text.
pub(crate) fn to_json(alloc: Global, input: &[u8], out: &mut Vec<u8>) -> anyhow::Result<()> {
    match read_blob(alloc, input) {
        Ok(attrs) => {
            put_json(alloc, out, attrs.as_slice())?;
            out.push(b'\n')?;
            Ok(())
        }
        Err(error) => put_fault(alloc, &error, out),
    }
}

/// Reads a JSON text, and puts its attributes, or its fault and where it is.
pub(crate) fn from_json(alloc: Global, input: &[u8], out: &mut Vec<u8>) -> anyhow::Result<()> {
    let value = Value::from_slice(alloc, input)?;
    let error = match blob_of_json(alloc, &value) {
        Ok(attrs) => return put_all(alloc, attrs.as_slice(), out),
        Err(error) => error,
    };
    let told = format!(in alloc; "error {} {error}\n", error.number())?;
    out.extend_from_slice(told.as_bytes())?;
    match &error {
        JsonError::Fraction { path } | JsonError::Wide { path } | JsonError::Deep { path } => {
            out.extend_from_slice(b"at ")?;
            out.extend_from_slice(path.as_bytes())?;
            out.push(b'\n')?;
        }
        JsonError::NotTable | JsonError::Memory => {}
    }
    Ok(())
}

/// Puts the text that JSON gives to these bytes.
pub(crate) fn put_text(alloc: Global, input: &[u8], out: &mut Vec<u8>) -> anyhow::Result<()> {
    let text = json_text(alloc, input)?;
    out.extend_from_slice(text.as_bytes())?;
    Ok(())
}

/// Puts how many bytes an attribute takes, whose name and, for a string, whose text the input
/// tells.
pub(crate) fn put_size(
    alloc: Global,
    kind: &str,
    input: &[u8],
    out: &mut Vec<u8>,
) -> anyhow::Result<()> {
    let attr = match kind {
        "string" => string_of(alloc, input)?,
        "nothing" => Attr {
            name: Text::from_bytes(alloc, input)?,
            value: Blob::Unspec,
        },
        _ => return Err(anyhow::anyhow!("no such kind of value")),
    };
    let mut attrs = Items::new(alloc);
    attrs.push(attr)?;
    tell_size(alloc, blob_size(attrs.as_slice()), out)
}

/// A string, whose name and text are divided by a newline.
fn string_of(alloc: Global, input: &[u8]) -> anyhow::Result<Attr> {
    let mut parts = input.splitn(2, |byte| *byte == b'\n');
    let (Some(name), Some(text)) = (parts.next(), parts.next()) else {
        return Err(anyhow::anyhow!("no name and text"));
    };
    Ok(Attr {
        name: Text::from_bytes(alloc, name)?,
        value: Blob::Str(Text::from_bytes(alloc, text)?),
    })
}
