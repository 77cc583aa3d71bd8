//! The folders of a case.
use plane_disk::{Disk, MemDisk, MemFile, are_disk_names, file_names};
use plane_io::Text;
use std::alloc::Global;

/// How many files a folder has at most.
const MOST_FILES: usize = 4096;

/// How often a file is read at most, until a read does not fail.
const TRIES: u32 = 1000;

/// The folder of packages and the folder of staged changes, whose files have the same names.
#[derive(Drop)]
pub(crate) struct Folder {
    alloc: Global,
    pub(crate) files: Vec<MemFile>,
    pub(crate) staged: Vec<MemFile>,
}

impl Folder {
    /// A folder without packages, in which no apply waits.
    pub(crate) fn new(alloc: Global) -> anyhow::Result<Folder> {
        Ok(Folder {
            alloc,
            files: own_files(alloc, b"\0\0")?,
            staged: own_files(alloc, b"")?,
        })
    }

    /// A copy, with what runs left of it so far.
    pub(crate) fn copy(&self) -> anyhow::Result<Folder> {
        Ok(Folder {
            alloc: self.alloc,
            files: copies(self.alloc, &self.files)?,
            staged: copies(self.alloc, &self.staged)?,
        })
    }

    /// The bytes of a file of packages.
    pub(crate) fn put_file(&mut self, name: &str, bytes: &[u8]) -> anyhow::Result<()> {
        self.files = with_file(self.alloc, &self.files, name, Some(bytes))?;
        self.staged = with_file(self.alloc, &self.staged, name, None)?;
        Ok(())
    }

    /// The bytes of a file of staged changes.
    pub(crate) fn put_staged(&mut self, name: &str, bytes: &[u8]) -> anyhow::Result<()> {
        self.files = with_file(self.alloc, &self.files, name, None)?;
        self.staged = with_file(self.alloc, &self.staged, name, Some(bytes))?;
        Ok(())
    }
}

/// The two files of each disk, of which the second one is empty.
fn own_files(alloc: Global, gates: &[u8]) -> anyhow::Result<Vec<MemFile>> {
    let mut files = Vec::new(alloc);
    files.push(file(alloc, b".plane-gates", gates)?)?;
    files.push(file(alloc, b".plane-snapshot", b"")?)?;
    Ok(files)
}

fn file(alloc: Global, name: &[u8], bytes: &[u8]) -> anyhow::Result<MemFile> {
    Ok(MemFile {
        name: Text::from_bytes(alloc, name)?,
        bytes: Text::from_bytes(alloc, bytes)?,
    })
}

fn copies(alloc: Global, files: &[MemFile]) -> anyhow::Result<Vec<MemFile>> {
    let mut list = Vec::new(alloc);
    for one in files {
        list.push(file(alloc, one.name.as_bytes(), one.bytes.as_bytes())?)?;
    }
    Ok(list)
}

/// The bytes of the file of that name.
pub(crate) fn bytes_of<'a>(files: &'a [MemFile], name: &str) -> Option<&'a [u8]> {
    files
        .iter()
        .find(|file| file.name.as_bytes() == name.as_bytes())
        .map(|file| file.bytes.as_bytes())
}

/// The files with one of that name and these bytes. Where there are none, it stays, and is empty
/// where it is new.
fn with_file(
    alloc: Global,
    files: &[MemFile],
    name: &str,
    bytes: Option<&[u8]>,
) -> anyhow::Result<Vec<MemFile>> {
    let new = bytes.or(bytes_of(files, name)).unwrap_or(b"");
    let mut list = Vec::new(alloc);
    for one in files
        .iter()
        .filter(|one| one.name.as_bytes() < name.as_bytes())
    {
        list.push(file(alloc, one.name.as_bytes(), one.bytes.as_bytes())?)?;
    }
    list.push(file(alloc, name.as_bytes(), new)?)?;
    for one in files
        .iter()
        .filter(|one| one.name.as_bytes() > name.as_bytes())
    {
        list.push(file(alloc, one.name.as_bytes(), one.bytes.as_bytes())?)?;
    }
    Ok(list)
}

/// A disk of these files, whose calls of these numbers fail, and those behind so many.
pub(crate) fn disk(
    alloc: Global,
    files: &[MemFile],
    failing: Vec<u64>,
    passed: Option<u64>,
) -> anyhow::Result<MemDisk> {
    let files = copies(alloc, files)?;
    if files.len() > MOST_FILES || !are_disk_names(&file_names(alloc, &files)?) {
        return Err(anyhow::anyhow!("these are no files of a disk"));
    }
    Ok(MemDisk::new(alloc, files, failing, passed)?)
}

/// The files that a disk has.
pub(crate) fn files_of(alloc: Global, disk: &mut MemDisk) -> anyhow::Result<Vec<MemFile>> {
    let mut files = Vec::new(alloc);
    for number in 0..disk.count() {
        files.push(file_of(alloc, disk, number)?)?;
    }
    Ok(files)
}

/// A file of a disk, whose calls may fail now and then.
fn file_of(alloc: Global, disk: &mut MemDisk, number: u32) -> anyhow::Result<MemFile> {
    for _ in 0..TRIES {
        if let Some(file) = read(alloc, disk, number)? {
            return Ok(file);
        }
    }
    Err(anyhow::anyhow!("the disk has stopped"))
}

/// A file of a disk, where it is there and the read does not fail.
fn read(alloc: Global, disk: &mut MemDisk, number: u32) -> anyhow::Result<Option<MemFile>> {
    if number >= disk.count() {
        return Ok(None);
    }
    let name = Text::from_bytes(alloc, disk.name(number))?;
    let size = usize::try_from(disk.size(number))?;
    let mut bytes = vec![in alloc; 0u8; size]?;
    match disk.read(number, 0, &mut bytes) {
        Ok(count) if count == size => Ok(Some(MemFile {
            name,
            bytes: Text::from_vec(bytes),
        })),
        _ => Ok(None),
    }
}
