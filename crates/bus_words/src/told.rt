use crate::attributes::put_json;
use blob_codec::{Attr, json_string};
use plane_io::Text;
use std::alloc::Global;
use std::fmt::Write;
use ubus_frames::Frame;

/// The kinds of messages, in the order of their numbers.
pub const KINDS: [&str; 12] = [
    "HELLO",
    "STATUS",
    "DATA",
    "PING",
    "LOOKUP",
    "INVOKE",
    "ADD_OBJECT",
    "REMOVE_OBJECT",
    "SUBSCRIBE",
    "UNSUBSCRIBE",
    "NOTIFY",
    "MONITOR",
];

/// Puts a message behind the bytes: its kind, its sequence, and each field that it has as
/// `NAME=VALUE`.
///
/// # Errors
///
/// Want of memory.
pub fn put_frame(alloc: Global, out: &mut Vec<u8>, frame: &Frame) -> anyhow::Result<()> {
    let mut told = String::new(alloc);
    put_head(&mut told, frame)?;
    put_numbers(&mut told, frame)?;
    put_texts(alloc, &mut told, frame)?;
    out.extend_from_slice(told.as_bytes())?;
    if let Some(attrs) = &frame.signature {
        put_blob(alloc, out, b" signature=", attrs.as_slice())?;
    }
    if let Some(attrs) = &frame.payload {
        put_blob(alloc, out, b" payload=", attrs.as_slice())?;
    }
    put_subscribers(alloc, out, frame)
}

/// Puts the kind, the sequence and the peer.
fn put_head(told: &mut String, frame: &Frame) -> anyhow::Result<()> {
    match KINDS.get(usize::from(frame.kind)) {
        Some(kind) => write!(told, "{kind} {}", frame.seq)?,
        None => write!(told, "{} {}", frame.kind, frame.seq)?,
    }
    if frame.peer != 0 {
        write!(told, " peer={}", frame.peer)?;
    }
    Ok(())
}

fn put_numbers(told: &mut String, frame: &Frame) -> anyhow::Result<()> {
    put_number(told, "status", frame.status)?;
    put_number(told, "id", frame.id)?;
    put_number(told, "type", frame.objtype)?;
    put_number(told, "target", frame.target)?;
    put_number(told, "active", frame.active.map(u32::from))?;
    put_number(told, "no_reply", frame.no_reply.map(u32::from))
}

fn put_number(told: &mut String, name: &str, value: Option<u32>) -> anyhow::Result<()> {
    if let Some(number) = value {
        write!(told, " {name}={number}")?;
    }
    Ok(())
}

fn put_texts(alloc: Global, told: &mut String, frame: &Frame) -> anyhow::Result<()> {
    put_text(alloc, told, "path", &frame.path)?;
    put_text(alloc, told, "method", &frame.method)?;
    put_text(alloc, told, "user", &frame.user)?;
    put_text(alloc, told, "group", &frame.group)
}

fn put_text(
    alloc: Global,
    told: &mut String,
    name: &str,
    text: &Option<Text>,
) -> anyhow::Result<()> {
    if let Some(text) = text {
        let text = json_string(alloc, text.as_bytes())?;
        write!(told, " {name}={text}")?;
    }
    Ok(())
}

fn put_blob(alloc: Global, out: &mut Vec<u8>, name: &[u8], attrs: &[Attr]) -> anyhow::Result<()> {
    out.extend_from_slice(name)?;
    put_json(alloc, out, attrs)
}

fn put_subscribers(alloc: Global, out: &mut Vec<u8>, frame: &Frame) -> anyhow::Result<()> {
    if let Some(numbers) = &frame.subscribers {
        let mut told = String::new(alloc);
        told.push_str(" subscribers=")?;
        for number in numbers.as_slice() {
            write!(told, "{number},")?;
        }
        out.extend_from_slice(told.as_bytes())?;
    }
    Ok(())
}
