//! How a body is read.
ghost use Rattle.std.specs.Prelude.{◌≡◌, ◌+◌, ◌<◌, ◌≤◌, ◌^◌, [], length, IfOk};
ghost use Rattle.snap_disk.specs.Body.{ReadsAs, sized, next_file, more_files, read_body};
ghost use Rattle.snap_disk.specs.Phase.{IsPackageFile, ArePackageFiles};

use crate::kept::Kept;
use crate::names::{has_number, number_of};
use crate::{NewFile, Pending, SnapError};
use plane_disk::Disk;
use plane_io::{Items, Text};
use std::alloc::Global;

/// The most bytes that a package file may have.
pub(crate) const MOST_BYTES: usize = 1_048_576;

/// How many bytes stand before the files.
const HEAD: usize = 29;

/// What a body keeps.
///
/// # Errors
///
/// `BadSnapshot` with the first wrong place, and `Memory`.
pub(crate) fn read_body<D: Disk>(alloc: Global, disk: &D, bytes: &[u8]) -> Result<Kept, SnapError>
    ensures reads { ReadsAs result (read_body (D.view disk.now).names bytes.now) }
    ensures packages { IfOk result (λ kept.
        ArePackageFiles (length (D.view disk.now).names) kept.files) }
{
    let Some((version, rest)) = bytes.split_first() else {
        return Err(wrong(0));
    };
    if *version != 1 && *version != 2 {
        return Err(wrong(0));
    }
    let Some((deadline, rest)) = rest.split_first_chunk::<8>() else {
        return Err(wrong(1));
    };
    let Some((holder, rest)) = rest.split_first_chunk::<16>() else {
        return Err(wrong(9));
    };
    let Some((count, rest)) = rest.split_first_chunk::<4>() else {
        return Err(wrong(25));
    };
    let pending = Pending {
        deadline: u64::from_be_bytes(*deadline),
        holder: u128::from_be_bytes(*holder),
    };
    match read_files(alloc, disk, u32::from_be_bytes(*count), rest) {
        Ok(files) => Ok(Kept { pending, files }),
        Err(error) => Err(error),
    }
}

fn wrong(place: usize) -> SnapError
    ensures { result ≡ SnapError.BadSnapshot place }
{
    SnapError::BadSnapshot { byte: place as u64 }
}

fn read_files<D: Disk>(
    alloc: Global,
    disk: &D,
    count: u32,
    bytes: &[u8],
) -> Result<Items<NewFile>, SnapError>
    requires { 29 + length bytes.now < 2 ^ 64 }
    ensures reads { ReadsAs result (more_files (D.view disk.now).names count [] 29 bytes.now) }
    ensures packages { IfOk result (λ files.
        ArePackageFiles (length (D.view disk.now).names) files) }
{
    let mut files = Items::new(alloc);
    let mut place = HEAD;
    let mut rest = bytes;
    for _more in 0..count {
        let (file, size) = match next_file(alloc, disk, files.as_slice(), place, rest) {
            Ok(next) => next,
            Err(error) => return Err(error),
        };
        files.push(file)?;
        place += size;
        let (_, behind) = rest.split_at(size);
        rest = behind;
    }
    if !rest.is_empty() {
        return Err(wrong(place));
    }
    Ok(files)
}

/// The next file, behind these, and how many bytes it takes. `place` is that of the first byte.
fn next_file<D: Disk>(
    alloc: Global,
    disk: &D,
    files: &[NewFile],
    place: usize,
    bytes: &[u8],
) -> Result<(NewFile, usize), SnapError>
    requires { place + length bytes.now < 2 ^ 64 }
    ensures reads { ReadsAs result (next_file (D.view disk.now).names files.now place bytes.now) }
    ensures fits { IfOk result (λ next. next.1 ≤ length bytes.now) }
    ensures package { IfOk result (λ next. IsPackageFile (length (D.view disk.now).names) next.0) }
{
    let Some((named, rest)) = bytes.split_first() else {
        return Err(wrong(place));
    };
    let named = *named as usize;
    if rest.len() < named {
        return Err(wrong(place + 1));
    }
    let (name, rest) = rest.split_at(named);
    let Some(number) = number_of(disk, name) else {
        return Err(wrong(place + 1));
    };
    if has_number(files, number) {
        return Err(wrong(place + 1));
    }
    sized_file(alloc, number, named, place + 1 + named, rest)
}

/// The file of that number, from the length of its bytes on.
fn sized_file(
    alloc: Global,
    file: u32,
    named: usize,
    place: usize,
    bytes: &[u8],
) -> Result<(NewFile, usize), SnapError>
    requires room { place + length bytes.now < 2 ^ 64 }
    requires short { named < 2 ^ 8 }
    ensures reads { ReadsAs result (sized file named place bytes.now) }
    ensures fits { IfOk result (λ next. next.1 ≤ 1 + named + length bytes.now) }
    ensures file { IfOk result (λ next. (next.0.file ≡ file) × (length next.0.bytes ≤ 1048576)) }
{
    let Some((size, rest)) = bytes.split_first_chunk::<4>() else {
        return Err(wrong(place));
    };
    let size = u32::from_be_bytes(*size) as usize;
    if size > MOST_BYTES {
        return Err(wrong(place));
    }
    if rest.len() < size {
        return Err(wrong(place + 4));
    }
    let (bytes, _) = rest.split_at(size);
    let bytes = Text::from_bytes(alloc, bytes)?;
    Ok((NewFile { file, bytes }, 5 + named + size))
}
