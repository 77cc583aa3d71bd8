//! What steps give of a run and of files.
use crate::ran::Ran;
use kern_model::{Call, Object, print_call};
use plane_disk::MemFile;
use std::alloc::Global;
use std::collections::BTreeSet;
use std::fmt::Write;

/// Puts what a run told, and its status, behind `out`.
pub(crate) fn put_end(alloc: Global, ran: &Ran, out: &mut Vec<u8>) -> anyhow::Result<()> {
    for line in ran.err.split_inclusive(|byte| *byte == b'\n') {
        out.extend_from_slice(b"err ")?;
        out.extend_from_slice(line)?;
    }
    put_status(alloc, ran.status, out)
}

fn put_status(alloc: Global, status: u8, out: &mut Vec<u8>) -> anyhow::Result<()> {
    let line = format!(in alloc; "status {status}\n")?;
    out.extend_from_slice(line.as_bytes())?;
    Ok(())
}

/// Puts the first lines of a text behind `out`.
pub(crate) fn put_head(text: &[u8], count: usize, out: &mut Vec<u8>) -> anyhow::Result<()> {
    for line in text.split_inclusive(|byte| *byte == b'\n').take(count) {
        out.extend_from_slice(line)?;
    }
    Ok(())
}

/// How many lines a text has.
pub(crate) fn line_count(text: &[u8]) -> usize {
    text.split_inclusive(|byte| *byte == b'\n').count()
}

/// Puts the last lines of a text behind `out`.
pub(crate) fn put_tail(text: &[u8], count: usize, out: &mut Vec<u8>) -> anyhow::Result<()> {
    let front = line_count(text).saturating_sub(count);
    for line in text.split_inclusive(|byte| *byte == b'\n').skip(front) {
        out.extend_from_slice(line)?;
    }
    Ok(())
}

/// The line of a call of the kernel.
fn line_of(alloc: Global, call: &Call) -> anyhow::Result<String> {
    let mut into = [0u8; 256];
    let size = print_call(call, &mut into);
    let bytes = into.get(..size).unwrap_or(b"");
    Ok(String::from_str(alloc, str::from_utf8(bytes)?)?)
}

/// Puts the lines of the calls that have this text behind `out`.
pub(crate) fn put_calls(
    alloc: Global,
    calls: &[Call],
    text: &str,
    out: &mut Vec<u8>,
) -> anyhow::Result<()> {
    for call in calls {
        let line = line_of(alloc, call)?;
        if line.contains(text) {
            out.extend_from_slice(line.as_bytes())?;
            out.push(b'\n')?;
        }
    }
    Ok(())
}

/// Puts the lines of the calls that put the objects behind `out`, in the order of their bytes.
pub(crate) fn put_objects(
    alloc: Global,
    objects: &[Object],
    out: &mut Vec<u8>,
) -> anyhow::Result<()> {
    let mut lines = BTreeSet::new(alloc);
    for object in objects {
        lines.insert(line_of(alloc, &Call::Put(*object))?)?;
    }
    put_lines(&lines, out)
}

/// Puts lines behind `out`, in the order of their bytes.
pub(crate) fn put_lines(lines: &BTreeSet<String>, out: &mut Vec<u8>) -> anyhow::Result<()> {
    for line in lines.iter() {
        out.extend_from_slice(line.as_bytes())?;
        out.push(b'\n')?;
    }
    Ok(())
}

/// Puts the packages of `now` that others had before behind `out`: the name, the size, and the
/// bytes.
pub(crate) fn put_changed(
    alloc: Global,
    before: &[MemFile],
    now: &[MemFile],
    out: &mut Vec<u8>,
) -> anyhow::Result<()> {
    for (old, new) in before.iter().zip(now).skip(2) {
        let bytes = new.bytes.as_bytes();
        if bytes == old.bytes.as_bytes() {
            continue;
        }
        out.extend_from_slice(new.name.as_bytes())?;
        let size = format!(in alloc; " {}\n", bytes.len())?;
        out.extend_from_slice(size.as_bytes())?;
        out.extend_from_slice(bytes)?;
    }
    Ok(())
}

/// What the gates of a folder tell: whether an apply waits in it.
pub(crate) fn gates_text(gates: &[u8]) -> &'static str {
    match gates {
        b"OO" => "waits",
        [b'O', ..] => "restores",
        _ => "none",
    }
}

/// How a run ended beside one in which no call failed: its status, how much of the output there is,
/// and what it told.
pub(crate) fn ending(alloc: Global, whole: &Ran, ran: &Ran) -> anyhow::Result<String> {
    let mut text = String::new(alloc);
    write!(text, "status {}, ", ran.status)?;
    let same = whole
        .out
        .split_inclusive(|byte| *byte == b'\n')
        .zip(ran.out.split_inclusive(|byte| *byte == b'\n'))
        .take_while(|(one, other)| one == other)
        .count();
    let is_all = same == line_count(&whole.out);
    text.push_str(match same {
        _ if is_all => "all of the output",
        0 => "no output",
        _ => "a front of the output",
    })?;
    push_lines(&mut text, &ran.out, same)?;
    push_lines(&mut text, &ran.err, 0)?;
    Ok(text)
}

/// Puts lines of a text, from this one on, into one line.
pub(crate) fn push_lines(text: &mut String, bytes: &[u8], from: usize) -> anyhow::Result<()> {
    for line in bytes.split(|byte| *byte == b'\n').skip(from) {
        if !line.is_empty() {
            text.push_str(", ")?;
            text.push_str(str::from_utf8(line)?)?;
        }
    }
    Ok(())
}
