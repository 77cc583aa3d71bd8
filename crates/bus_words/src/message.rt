use crate::attributes::attributes_of;
use crate::told::KINDS;
use plane_io::Text;
use sqlite_items::Items;
use std::alloc::Global;
use ubus_frames::Frame;

/// A message of a kind, told by its name or by its number, with a sequence and fields `NAME=VALUE`.
/// A value that is `<` is this input.
///
/// # Errors
///
/// Where a word is none of a message, or memory lacks.
pub fn message_of(
    alloc: Global,
    kind: &str,
    seq: &str,
    fields: &[&str],
    input: &[u8],
) -> anyhow::Result<Frame> {
    let mut frame = Frame::new(kind_of(kind)?, seq.parse()?, 0);
    for field in fields {
        let Some((name, value)) = field.split_once('=') else {
            return Err(anyhow::anyhow!("no field"));
        };
        let bytes = match value {
            "<" => input,
            _ => value.as_bytes(),
        };
        put_field(alloc, &mut frame, name, bytes)?;
    }
    Ok(frame)
}

/// The number of a kind, told by its name or by its number.
fn kind_of(word: &str) -> anyhow::Result<u8> {
    match KINDS.iter().position(|kind| *kind == word) {
        Some(place) => Ok(u8::try_from(place)?),
        None => Ok(word.parse()?),
    }
}

fn put_field(alloc: Global, frame: &mut Frame, name: &str, value: &[u8]) -> anyhow::Result<()> {
    match name {
        "path" => frame.path = Some(Text::from_bytes(alloc, value)?),
        "method" => frame.method = Some(Text::from_bytes(alloc, value)?),
        "user" => frame.user = Some(Text::from_bytes(alloc, value)?),
        "group" => frame.group = Some(Text::from_bytes(alloc, value)?),
        _ => return put_other(alloc, frame, name, str::from_utf8(value)?),
    }
    Ok(())
}

fn put_other(alloc: Global, frame: &mut Frame, name: &str, value: &str) -> anyhow::Result<()> {
    match name {
        "signature" => frame.signature = Some(attributes_of(alloc, value)?),
        "payload" => frame.payload = Some(attributes_of(alloc, value)?),
        "subscribers" => frame.subscribers = Some(numbers_of(alloc, value)?),
        _ => return put_number(frame, name, value.parse()?),
    }
    Ok(())
}

/// The numbers between which commas stand.
fn numbers_of(alloc: Global, text: &str) -> anyhow::Result<Items<u32>> {
    let mut numbers = Items::new(alloc);
    for number in text.split(',').filter(|number| !number.is_empty()) {
        numbers.push(number.parse()?)?;
    }
    Ok(numbers)
}

fn put_number(frame: &mut Frame, name: &str, value: u32) -> anyhow::Result<()> {
    match name {
        "peer" => frame.peer = value,
        "status" => frame.status = Some(value),
        "id" => frame.id = Some(value),
        "type" => frame.objtype = Some(value),
        "target" => frame.target = Some(value),
        "active" => frame.active = Some(value != 0),
        "no_reply" => frame.no_reply = Some(value != 0),
        _ => return Err(anyhow::anyhow!("no such field")),
    }
    Ok(())
}
