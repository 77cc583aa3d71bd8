//! The disks of a run: over folders, and in memory.
ghost use Rattle.std.specs.Prelude.{◌≡◌, [], ◌∷◌, codes, IfOk};
ghost use Rattle.plane_disk.specs.MemDisk.{names_of};

use plane_disk::{Disk, MemDisk, MemFile};
use plane_io::Text;
use plane_main::Locations;
use plane_real::DirDisk;
use std::alloc::Global;
use std::io;
use std::io::ErrorKind;

/// The disks of the packages and of staged changes.
///
/// # Errors
///
/// Where the system does not open or make them.
pub fn open_folders(
    rt: &HostRuntime,
    alloc: Global,
    places: &Locations,
) -> io::Result<(DirDisk, DirDisk)> {
    let files = DirDisk::open(rt, alloc, text_of(&places.files)?)?;
    let mut packages = Vec::new(alloc);
    for file in 2..files.count() {
        packages.push(text_in(alloc, files.name(file))?)?;
    }
    let folder = text_of(&places.staged)?;
    let staged = DirDisk::open_staged(rt, alloc, folder, &packages)?;
    Ok((files, staged))
}

/// A place as the text that it is.
///
/// # Errors
///
/// Where it is no text.
pub fn text_of(place: &Text) -> io::Result<&str> {
    match str::from_utf8(place.as_bytes()) {
        Ok(text) => Ok(text),
        Err(_) => Err(io::Error::from(ErrorKind::InvalidFilename)),
    }
}

/// A disk in memory without packages.
///
/// # Errors
///
/// Want of memory.
pub fn memory_disk(alloc: Global) -> io::Result<MemDisk>
    ensures names { IfOk result (λ disk. names_of disk.start
        ≡ codes ".plane-gates" ∷ codes ".plane-snapshot" ∷ []) }
{
    let mut files = Vec::new(alloc);
    files.push(empty_file(alloc, b".plane-gates")?)?;
    files.push(empty_file(alloc, b".plane-snapshot")?)?;
    match MemDisk::new(alloc, files, Vec::new(alloc), None) {
        Ok(disk) => Ok(disk),
        Err(_) => Err(io::Error::from(ErrorKind::OutOfMemory)),
    }
}

fn empty_file(alloc: Global, name: &[u8]) -> io::Result<MemFile>
    ensures { IfOk result (λ file. file.name ≡ name.now) }
{
    let name = text_in(alloc, name)?;
    Ok(MemFile {
        name,
        bytes: Text::from_vec(Vec::new(alloc)),
    })
}

// A text of these bytes.
fn text_in(alloc: Global, bytes: &[u8]) -> io::Result<Text>
    ensures { IfOk result (λ text. text ≡ bytes.now) }
{
    match Text::from_bytes(alloc, bytes) {
        Ok(text) => Ok(text),
        Err(_) => Err(io::Error::from(ErrorKind::OutOfMemory)),
    }
}
