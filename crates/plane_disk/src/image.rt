//! Which files a crash may leave of a disk in memory.
ghost use Rattle.std.specs.Prelude.{◌≡◌, ◌≤◌, ◌<◌, ◌↔◌, ◌^◌, IsTrue, length, IfOk};
ghost use Rattle.std.specs.List.{list_any};
ghost use Rattle.plane_disk.specs.Images.{is_written_by, least_with, greatest_with};
ghost use Rattle.plane_disk.specs.Images.{least_size, greatest_size, IsImageOf, IsImage};
ghost use Rattle.plane_disk.specs.MemDisk.{names_of, contents_of};

use crate::call::DiskCall;
use crate::mem_file::MemFile;
use plane_io::{Memory, Text};
use std::alloc::Global;

/// Whether the call writes that place of that file.
fn writes(call: &DiskCall, file: u32, place: u64) -> bool
    ensures { result ≡ is_written_by file place call.now }
{
    match call {
        DiskCall::Write {
            file: other,
            at,
            bytes,
            ..
        } => *other == file && *at <= place && place - *at < bytes.as_bytes().len() as u64,
        _ => false,
    }
}

/// The least size of a file with one more call.
fn least(call: &DiskCall, file: u32, before: u64) -> u64
    ensures { result ≡ least_with file before call.now }
{
    match call {
        DiskCall::Cut {
            file: other,
            size,
            ..
        } if *other == file => before.min(*size),
        _ => before,
    }
}

/// The greatest size of a file with one more call.
fn greatest(call: &DiskCall, file: u32, before: u128) -> u128
    ensures { result ≡ greatest_with file before call.now }
{
    match call {
        DiskCall::Write {
            file: other,
            at,
            bytes,
            ..
        } if *other == file => before.max(u128::from(*at) + bytes.as_bytes().len() as u128),
        _ => before,
    }
}

/// The least size of a file since it had these bytes.
fn least_since(file: u32, synced: &[u8], since: &[DiskCall]) -> u64
    ensures least { result ≡ least_size file synced.now since.now }
    ensures fits { result ≤ length synced.now }
{
    let mut size = synced.len() as u64;
    for call in since {
        size = least(call, file, size);
    }
    size
}

/// The greatest size of a file since it had these bytes.
fn greatest_since(file: u32, synced: &[u8], since: &[DiskCall]) -> u128
    ensures { result ≡ greatest_size file synced.now since.now }
{
    let mut size = synced.len() as u128;
    for call in since {
        size = greatest(call, file, size);
    }
    size
}

/// Whether one of the calls writes that place of that file.
fn is_written(file: u32, place: u64, since: &[DiskCall]) -> bool
    ensures { result ≡ list_any (is_written_by file place) since.now }
{
    since.iter().any(|call| writes(call, file, place))
}

/// Whether a crash may leave these bytes of a file that had others at the last sync.
fn is_image_of(file: u32, synced: &[u8], since: &[DiskCall], bytes: &[u8]) -> bool
    ensures { IsTrue result ↔ IsImageOf file synced.now since.now bytes.now }
{
    let least = least_since(file, synced, since) as usize;
    if bytes.len() < least || greatest_since(file, synced, since) < bytes.len() as u128 {
        return false;
    }
    for place in 0..least {
        if bytes[place] != synced[place] && !is_written(file, place as u64, since) {
            return false;
        }
    }
    true
}

/// Whether a crash may leave these files of a disk that had others at the last sync.
pub(crate) fn is_image(synced: &[Text], since: &[DiskCall], files: &[Text]) -> bool
    requires { length synced.now < 2 ^ 32 }
    ensures { IsTrue result ↔ IsImage
        (record { seen = synced.now; synced = synced.now; since = since.now }) files.now }
{
    if files.len() != synced.len() {
        return false;
    }
    for file in 0..files.len() {
        if !is_image_of(
            file as u32,
            synced[file].as_bytes(),
            since,
            files[file].as_bytes(),
        ) {
            return false;
        }
    }
    true
}

/// Files of the same names with these contents.
pub(crate) fn refilled(
    alloc: Global,
    old: &[MemFile],
    contents: &[Text],
) -> Result<Vec<MemFile>, Memory>
    requires { length contents.now ≡ length old.now }
    ensures names { IfOk result (λ files. names_of files.items ≡ names_of old.now) }
    ensures contents { IfOk result (λ files. contents_of files.items ≡ contents.now) }
{
    let mut files = Vec::new(alloc);
    for i in 0..old.len() {
        files.push(MemFile {
            name: old[i].name.copy()?,
            bytes: contents[i].copy()?,
        })?;
    }
    Ok(files)
}
