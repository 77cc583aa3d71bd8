//! The devices of a run: real ones where the command has places, and empty ones in memory where it
//! has none.
ghost use Rattle.std.specs.Prelude.{◌≡◌};

use crate::folders::{memory_disk, open_folders, text_of};
use kern_memory::MemKernel;
use plane_disk::Disk;
use plane_io::{Sink, Source};
use plane_main::{Locations, lack_memory, plane};
use plane_outside::{MemHub, SeededRandom};
use plane_real::{StdSink, StdSource, SystemClock};
use std::alloc::Global;
use std::fs::File;
use std::io;
use std::io::ErrorKind;
use uci_store::have_same_packages;

/// The text where a place cannot be opened or made.
const CANNOT_OPEN: &[u8] = b"plane: cannot open\n";

/// The status of that.
const OPENED_NOTHING: u8 = 13;

/// Carries the command out over the devices of its places.
pub fn run<E: Sink>(
    rt: &HostRuntime,
    alloc: Global,
    words: &[String],
    places: Option<&Locations>,
    err: &mut E,
) -> u8 {
    let done = match places {
        Some(places) if has_folders(places) => run_over(rt, alloc, words, places, err),
        _ => run_without(rt, alloc, words, err),
    };
    match done {
        Ok(status) => status,
        Err(error) if error.kind() == ErrorKind::OutOfMemory => lack_memory(err),
        Err(_) => {
            let _ = err.write(CANNOT_OPEN);
            OPENED_NOTHING
        }
    }
}

fn has_folders(places: &Locations) -> bool {
    !places.files.as_bytes().is_empty() || !places.staged.as_bytes().is_empty()
}

// Over its folders and its input.
fn run_over<E: Sink>(
    rt: &HostRuntime,
    alloc: Global,
    words: &[String],
    places: &Locations,
    err: &mut E,
) -> io::Result<u8> {
    let (mut files, mut staged) = open_folders(rt, alloc, places)?;
    if !have_same_packages(&files, &staged) {
        return Err(io::Error::from(ErrorKind::InvalidInput));
    }
    let Some(path) = &places.input else {
        let mut input = StdSource::new(rt.stdin());
        let status = carry(rt, alloc, words, &mut input, err, &mut files, &mut staged);
        return Ok(status);
    };
    let mut input = StdSource::new(File::open(rt, text_of(path)?)?);
    let status = carry(rt, alloc, words, &mut input, err, &mut files, &mut staged);
    Ok(status)
}

// Over empty disks and the standard input.
fn run_without<E: Sink>(
    rt: &HostRuntime,
    alloc: Global,
    words: &[String],
    err: &mut E,
) -> io::Result<u8> {
    let mut input = StdSource::new(rt.stdin());
    let mut files = memory_disk(alloc)?;
    let mut staged = memory_disk(alloc)?;
    let status = carry(rt, alloc, words, &mut input, err, &mut files, &mut staged);
    Ok(status)
}

// Over an input and two disks; the other devices are those of the process, and the kernel is a
// model.
fn carry<S: Source, E: Sink, D: Disk, T: Disk>(
    rt: &HostRuntime,
    alloc: Global,
    words: &[String],
    input: &mut S,
    err: &mut E,
    files: &mut D,
    staged: &mut T,
) -> u8
    requires { (T.view staged.old).names ≡ (D.view files.old).names }
{
    let mut out = StdSink::new(rt.stdout());
    let mut kernel = MemKernel::unlogged(alloc);
    let mut hub = MemHub::new(alloc, Vec::new(alloc), Vec::new(alloc));
    let mut clock = SystemClock::new(rt);
    let mut random = SeededRandom::new([0; 32]);
    plane(
        alloc,
        words,
        input,
        &mut out,
        err,
        files,
        staged,
        &mut kernel,
        &mut hub,
        &mut clock,
        &mut random,
    )
}
