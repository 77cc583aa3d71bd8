//! Files by their names, and disks of them.
use plane_disk::{Disk, MemDisk, MemFile, are_disk_names, file_names};
use plane_io::Text;
use std::alloc::Global;

/// How many files a disk may have.
const MOST_FILES: usize = 1000;

/// A file by its name.
#[derive(Drop)]
pub(crate) struct Named {
    name: String,
    bytes: Vec<u8>,
}

/// Puts the bytes of a file, in its place by its name.
pub(crate) fn put(
    alloc: Global,
    files: &mut Vec<Named>,
    name: &str,
    bytes: &[u8],
) -> anyhow::Result<()> {
    let bytes = Vec::from_slice(alloc, bytes)?;
    if let Some(file) = files.iter_mut().find(|file| file.name.as_str() == name) {
        file.bytes = bytes;
        return Ok(());
    }
    let name = String::from_str(alloc, name)?;
    let place = files
        .iter()
        .take_while(|file| file.name.as_str() < name.as_str())
        .count();
    if place > files.len() {
        return Err(anyhow::anyhow!("no such place"));
    }
    files.insert(place, Named { name, bytes })?;
    Ok(())
}

/// Gives each of these files an empty one of its name, where there is none.
pub(crate) fn put_others(
    alloc: Global,
    files: &mut Vec<Named>,
    names: &[Named],
) -> anyhow::Result<()> {
    for other in names {
        if !files
            .iter()
            .any(|file| file.name.as_str() == other.name.as_str())
        {
            put(alloc, files, other.name.as_str(), b"")?;
        }
    }
    Ok(())
}

/// A disk of these files, whose calls of these numbers fail, and all behind so many.
pub(crate) fn disk_of(
    alloc: Global,
    files: &[Named],
    failing: Vec<u64>,
    passed: Option<u64>,
) -> anyhow::Result<MemDisk> {
    let mut list = Vec::new(alloc);
    for file in files {
        list.push(MemFile {
            name: Text::from_bytes(alloc, file.name.as_bytes())?,
            bytes: Text::from_bytes(alloc, &file.bytes)?,
        })?;
    }
    if list.len() > MOST_FILES || !are_disk_names(&file_names(alloc, &list)?) {
        return Err(anyhow::anyhow!("no names of a disk"));
    }
    Ok(MemDisk::new(alloc, list, failing, passed)?)
}

/// Numbers of calls.
pub(crate) fn numbers_of(alloc: Global, words: &[&str]) -> anyhow::Result<Vec<u64>> {
    let mut numbers = Vec::new(alloc);
    for word in words {
        numbers.push(word.parse::<u64>()?)?;
    }
    Ok(numbers)
}

/// The number of the file of this name.
pub(crate) fn number_of(disk: &MemDisk, name: &str) -> anyhow::Result<u32> {
    for file in 0..disk.count() {
        if disk.name(file) == name.as_bytes() {
            return Ok(file);
        }
    }
    Err(anyhow::anyhow!("no such file"))
}

/// All bytes of a file of a disk, or nothing where a read fails.
pub(crate) fn all_of(alloc: Global, disk: &mut MemDisk, file: u32) -> anyhow::Result<Vec<u8>> {
    if file >= disk.count() {
        return Err(anyhow::anyhow!("no such file"));
    }
    let mut bytes = vec![in alloc; 0u8; usize::try_from(disk.size(file))?]?;
    let count = disk.read(file, 0, &mut bytes).unwrap_or(0);
    bytes.truncate(count);
    Ok(bytes)
}
