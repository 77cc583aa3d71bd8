//! `frames SIZE TIMES`: reads a stream of frames from the standard input, feeds it so many times to
//! a new feeder, in pieces of so many bytes, and gives how many frames were taken the last time.
ghost use Rattle.std.specs.Prelude.{◌<◌};

use plane_io::read_to_end;
use plane_real::StdSource;
use std::alloc::Global;
use ubus_frames::{Feeder, FrameError};

/// How many bytes a stream may have.
const LIMIT: u64 = 1 << 30;

/// How long a piece is, and how often the stream is fed.
#[derive(Clone, Copy)]
struct Work {
    size: u32,
    times: u32,
}

fn feed_often(alloc: Global, bytes: &[u8], work: Work) -> Result<usize, FrameError>
    requires { 0 < work.size }
{
    let mut count = 0;
    for _ in 0..work.times {
        count = feed(alloc, bytes, work.size as usize)?;
    }
    Ok(count)
}

fn feed(alloc: Global, bytes: &[u8], size: usize) -> Result<usize, FrameError>
    requires { 0 < size }
{
    let mut feeder = Feeder::new(alloc);
    let mut count: usize = 0;
    for piece in bytes.chunks(size) {
        feeder.feed(piece)?;
        count = count.saturating_add(take_all(&mut feeder));
    }
    Ok(count)
}

fn take_all(feeder: &mut Feeder) -> usize {
    let mut count: usize = 0;
    while let Some(_) = feeder.take() {
        count = count.saturating_add(1);
    }
    count
}

/// Carries these words out.
pub(crate) fn run(rt: &HostRuntime, words: &[&str]) -> anyhow::Result<Option<String>> {
    let alloc = rt.alloc();
    let [size, times] = words else {
        return Ok(None);
    };
    let work = Work {
        size: size.parse()?,
        times: times.parse()?,
    };
    if work.size == 0 {
        return Ok(None);
    }
    let bytes = read_to_end(alloc, &mut StdSource::new(rt.stdin()), LIMIT)?;
    let count = feed_often(alloc, bytes.as_slice(), work)?;
    Ok(Some(format!(in alloc; "{count}")?))
}
