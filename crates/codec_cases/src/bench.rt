use crate::blobs::{from_json, put_blob, put_size, put_text, rewrite, to_json};
use crate::frames::{bytes, feed, frame_bytes, pieces, size_of_frame, take, take_all};
use blob_codec::BlobError;
use blob_json::JsonError;
use case_files::{Stage, words};
use std::alloc::Global;
use std::fmt::Write;
use ubus_frames::{Feeder, FrameError};

/// A feeder that was fed the pieces of the steps so far.
#[derive(Drop)]
pub(crate) struct Bench {
    alloc: Global,
    feeder: Feeder,
}

impl Stage for Bench {
    fn new(alloc: Global) -> anyhow::Result<Bench> {
        Ok(Bench {
            alloc,
            feeder: Feeder::new(alloc),
        })
    }

    fn step(&mut self, line: &str, input: &[u8], out: &mut Vec<u8>) -> anyhow::Result<()> {
        let words = words(self.alloc, line)?;
        match words.as_slice() {
            ["feed"] => feed(&mut self.feeder, input, out),
            ["take"] => take(self.alloc, &mut self.feeder, out),
            ["take", "all"] => take_all(self.alloc, &mut self.feeder, out),
            other => pure(self.alloc, other, input, out),
        }
    }
}

/// A step that asks for no earlier one.
fn pure(alloc: Global, words: &[&str], input: &[u8], out: &mut Vec<u8>) -> anyhow::Result<()> {
    match words {
        ["blob"] => put_blob(alloc, input, out),
        ["rewrite"] => rewrite(alloc, input, out),
        ["to", "json"] => to_json(alloc, input, out),
        ["from", "json"] => from_json(alloc, input, out),
        ["text"] => put_text(alloc, input, out),
        ["size", kind] => put_size(alloc, kind, input, out),
        ["frame", "size"] => size_of_frame(alloc, input, out),
        ["frame", kind, seq, fields @ ..] => frame_bytes(alloc, kind, seq, fields, input, out),
        ["bytes"] => bytes(alloc, input, out),
        ["pieces"] => pieces(alloc, input, out),
        ["memory"] => memory(alloc, out),
        _ => Err(anyhow::anyhow!("no such step")),
    }
}

/// The errors that tell of want of memory.
fn memory(alloc: Global, out: &mut Vec<u8>) -> anyhow::Result<()> {
    let (blob, json, frame) = (BlobError::Memory, JsonError::Memory, FrameError::Memory);
    let mut told = String::new(alloc);
    writeln!(told, "blob: error {} {blob}", blob.number())?;
    writeln!(told, "JSON: error {} {json}", json.number())?;
    writeln!(told, "frame: error {} {frame}", frame.number())?;
    out.extend_from_slice(told.as_bytes())?;
    Ok(())
}
