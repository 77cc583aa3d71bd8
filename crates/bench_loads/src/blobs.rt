//! `blob read|write TIMES`: reads a blob from the standard input so many times, and gives how many
//! attributes stand in it at the top; or reads it once, writes it so many times, and gives how many
//! bytes that takes.
ghost use Rattle.std.specs.Prelude.{◌<◌, ◌^◌, length};

use blob_codec::{BlobError, blob_size, read_blob, write_blob};
use plane_io::read_to_end;
use plane_real::StdSource;
use std::alloc::Global;

/// How many bytes a blob may have.
const LIMIT: u64 = 1 << 30;

/// What is done with a blob, and how many times.
#[derive(Clone, Copy)]
enum Work {
    Read(u32),
    Write(u32),
}

impl Work {
    fn of(word: &str, times: u32) -> Option<Work> {
        match word {
            "read" => Some(Work::Read(times)),
            "write" => Some(Work::Write(times)),
            _ => None,
        }
    }

    fn carry_out(self, alloc: Global, bytes: &[u8]) -> Result<usize, BlobError> {
        match self {
            Work::Read(times) => read_often(alloc, bytes, times),
            Work::Write(times) => write_often(alloc, bytes, times),
        }
    }
}

fn read_often(alloc: Global, bytes: &[u8], times: u32) -> Result<usize, BlobError> {
    let mut count = 0;
    for _ in 0..times {
        count = read_blob(alloc, bytes)?.len();
    }
    Ok(count)
}

fn write_often(alloc: Global, bytes: &[u8], times: u32) -> Result<usize, BlobError> {
    let attrs = read_blob(alloc, bytes)?;
    let attrs = attrs.as_slice();
    let Some(_) = blob_size(attrs) else {
        return Ok(0);
    };
    let mut count = 0;
    for _ in 0..times {
        let mut out = Vec::new(alloc);
        write_blob(&mut out, attrs)?;
        count = out.len();
    }
    Ok(count)
}

/// Carries these words out.
pub(crate) fn run(rt: &HostRuntime, words: &[&str]) -> anyhow::Result<Option<String>> {
    let alloc = rt.alloc();
    let [word, times] = words else {
        return Ok(None);
    };
    let Some(work) = Work::of(word, times.parse()?) else {
        return Ok(None);
    };
    let bytes = read_to_end(alloc, &mut StdSource::new(rt.stdin()), LIMIT)?;
    let count = work.carry_out(alloc, bytes.as_slice())?;
    Ok(Some(format!(in alloc; "{count}")?))
}
