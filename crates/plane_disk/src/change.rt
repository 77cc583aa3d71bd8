//! What the calls of a disk in memory do to its fields.
ghost use Rattle.std.specs.Prelude.{◌≡◌, ◌≤◌, ◌<◌, ◌++◌, [], ◌∷◌, ◌↔◌, IsTrue, length, OnOk, OnErr};
ghost use Rattle.std.specs.Prelude.{IfOk};
ghost use Rattle.plane_disk.specs.declared.call.DiskCall.TheVariants.{Write, Cut, Sync};
ghost use Rattle.plane_disk.specs.Files.{bytes_of, put_at, Reads};
ghost use Rattle.plane_disk.specs.Calls.{seen_after};
ghost use Rattle.plane_disk.specs.MemDisk.{contents_of, IsToFail};

use crate::call::DiskCall;
use crate::mem_file::MemFile;
use plane_io::{Memory, Text};
use std::alloc::Global;

/// Whether the call of that number is one that fails.
pub(crate) fn is_to_fail(failing: &[u64], fuse: Option<u64>, number: u64) -> bool
    ensures { IsTrue result ↔ IsToFail failing.now fuse number }
{
    let blown = match fuse {
        Some(passed) => passed < number,
        None => false,
    };
    blown || failing.contains(&number)
}

/// The bytes of the files.
pub(crate) fn contents(alloc: Global, files: &[MemFile]) -> Result<Vec<Text>, Memory>
    ensures { IfOk result (λ texts. texts.items ≡ contents_of files.now) }
{
    let mut texts = Vec::new(alloc);
    for file in files {
        texts.push(file.bytes.copy()?)?;
    }
    Ok(texts)
}

/// The same texts.
fn copies(alloc: Global, texts: &[Text]) -> Result<Vec<Text>, Memory>
    ensures { IfOk result (λ copied. copied.items ≡ texts.now) }
{
    let mut copied = Vec::new(alloc);
    for text in texts {
        copied.push(text.copy()?)?;
    }
    Ok(copied)
}

/// The bytes of a file with others written over them from a place on.
fn written(alloc: Global, old: &[u8], at: usize, bytes: &[u8]) -> Result<Text, Memory>
    requires { at ≤ length old.now }
    ensures { IfOk result (λ text. text ≡ put_at old.now at bytes.now) }
{
    let mut whole = Vec::from_slice(alloc, &old[..at])?;
    whole.extend_from_slice(bytes)?;
    let behind = at.saturating_add(bytes.len());
    if behind < old.len() {
        whole.extend_from_slice(&old[behind..])?;
    }
    Ok(Text::from_vec(whole))
}

/// Copies what a file has from a place on into the front of a buffer, as much as fits, and answers
/// how much.
pub(crate) fn copy_from(bytes: &[u8], at: usize, into: &mut [u8]) -> usize
    ensures fits { result ≤ length into.new }
    ensures reads { Reads bytes.now at result into.old into.new }
{
    let (_, rest) = bytes.split_at(at.min(bytes.len()));
    let count = into.len().min(rest.len());
    into[..count].copy_from_slice(&rest[..count]);
    count
}

/// Writes bytes over a file where the call is done, and records it. Where there is not enough
/// memory, nothing changes.
pub(crate) fn write(
    files: &mut Vec<Text>,
    calls: &mut Vec<DiskCall>,
    file: u32,
    at: u64,
    bytes: &[u8],
    done: bool,
) -> Result<(), Memory>
    requires number { file < length files.old.items }
    requires inside { at ≤ length (bytes_of files.old.items file) }
    ensures seen { OnOk result
        (files.new.items ≡ seen_after files.old.items (Write file at bytes.now done)) }
    ensures recorded { OnOk result
        (calls.new.items ≡ calls.old.items ++ Write file at bytes.now done ∷ []) }
    ensures kept { OnErr result (files.new.items ≡ files.old.items) }
    ensures not_recorded { OnErr result (calls.new.items ≡ calls.old.items) }
{
    let alloc = *calls.allocator();
    let kept = Text::from_bytes(alloc, bytes)?;
    let whole = written(alloc, files[file as usize].as_bytes(), at as usize, bytes)?;
    calls.push(DiskCall::Write {
        file,
        at,
        bytes: kept,
        done,
    })?;
    if done {
        files[file as usize] = whole;
    }
    Ok(())
}

/// Cuts a file where the call is done, and records it. Where there is not enough memory, nothing
/// changes.
pub(crate) fn cut(
    files: &mut Vec<Text>,
    calls: &mut Vec<DiskCall>,
    file: u32,
    size: u64,
    done: bool,
) -> Result<(), Memory>
    requires { file < length files.old.items }
    ensures seen { OnOk result (files.new.items ≡ seen_after files.old.items (Cut file size done)) }
    ensures recorded { OnOk result (calls.new.items ≡ calls.old.items ++ Cut file size done ∷ []) }
    ensures kept { OnErr result (files.new.items ≡ files.old.items) }
    ensures not_recorded { OnErr result (calls.new.items ≡ calls.old.items) }
{
    let alloc = *calls.allocator();
    let old = files[file as usize].as_bytes();
    let (front, _) = old.split_at(old.len().min(size as usize));
    let whole = Text::from_bytes(alloc, front)?;
    calls.push(DiskCall::Cut { file, size, done })?;
    if done {
        files[file as usize] = whole;
    }
    Ok(())
}

/// Keeps the files as they are, and records a sync. Where there is not enough memory, nothing
/// changes.
pub(crate) fn record_sync(
    seen: &[Text],
    synced: &mut Vec<Text>,
    calls: &mut Vec<DiskCall>,
) -> Result<(), Memory>
    ensures kept { OnOk result (synced.new.items ≡ seen.now) }
    ensures recorded { OnOk result (calls.new.items ≡ calls.old.items ++ Sync ∷ []) }
    ensures stays { OnErr result (synced.new.items ≡ synced.old.items) }
    ensures not_recorded { OnErr result (calls.new.items ≡ calls.old.items) }
{
    let kept = copies(*calls.allocator(), seen)?;
    calls.push(DiskCall::Sync)?;
    *synced = kept;
    Ok(())
}
