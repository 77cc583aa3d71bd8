//! A folder of packages, and of the command line's staged changes of them.
use plane_disk::{Disk, MemDisk, MemFile, are_disk_names, file_names};
use plane_io::{Failed, Text};
use std::alloc::Global;
use std::mem;

/// How many files a folder may have.
const MOST_FILES: usize = 1000;

/// A file by its name.
#[derive(Drop)]
struct Named {
    name: String,
    bytes: Vec<u8>,
}

/// The numbers of calls that fail in a run, by device.
#[derive(Drop)]
pub(crate) struct Failing {
    pub(crate) files: Vec<u64>,
    pub(crate) staged: Vec<u64>,
    pub(crate) input: Vec<u64>,
    pub(crate) output: Vec<u64>,
    pub(crate) told: Vec<u64>,
}

impl Failing {
    fn new(alloc: Global) -> Failing {
        Failing {
            files: Vec::new(alloc),
            staged: Vec::new(alloc),
            input: Vec::new(alloc),
            output: Vec::new(alloc),
            told: Vec::new(alloc),
        }
    }

    /// The calls of these numbers fail at a device.
    fn note(&mut self, alloc: Global, device: &str, numbers: &[&str]) -> anyhow::Result<()> {
        let mut list = Vec::new(alloc);
        for number in numbers {
            list.push(number.parse::<u64>()?)?;
        }
        match device {
            "files" => self.files = list,
            "staged" => self.staged = list,
            "input" => self.input = list,
            "output" => self.output = list,
            "told" => self.told = list,
            _ => return Err(anyhow::anyhow!("no such device")),
        }
        Ok(())
    }
}

/// The files of a folder and those of its staged changes, of the same names in byte order.
#[derive(Drop)]
pub(crate) struct Folder {
    alloc: Global,
    files: Vec<Named>,
    staged: Vec<Named>,
    failing: Failing,
}

impl Folder {
    /// A folder without packages.
    pub(crate) fn new(alloc: Global) -> anyhow::Result<Folder> {
        Ok(Folder {
            alloc,
            files: first_files(alloc, b"\0\0")?,
            staged: first_files(alloc, b"")?,
            failing: Failing::new(alloc),
        })
    }

    /// Puts a file, gives one, or notes what fails.
    pub(crate) fn step(
        &mut self,
        words: &[&str],
        input: &[u8],
        out: &mut Vec<u8>,
    ) -> anyhow::Result<()> {
        match words {
            ["file", name] => {
                put(self.alloc, &mut self.files, name, input)?;
                add(self.alloc, &mut self.staged, name)
            }
            ["staged", name] => {
                put(self.alloc, &mut self.staged, name, input)?;
                add(self.alloc, &mut self.files, name)
            }
            ["read", name] => give(&self.files, name, out),
            ["read-staged", name] => give(&self.staged, name, out),
            ["fail", device, numbers @ ..] => self.failing.note(self.alloc, device, numbers),
            _ => Err(anyhow::anyhow!("no such step")),
        }
    }

    /// What fails in a run, and behind it no more.
    pub(crate) fn take_failing(&mut self) -> Failing {
        mem::replace(&mut self.failing, Failing::new(self.alloc))
    }

    /// The disk of the packages.
    pub(crate) fn disk_of_files(&self, failing: Vec<u64>) -> anyhow::Result<MemDisk> {
        disk(self.alloc, &self.files, failing)
    }

    /// The disk of the staged changes.
    pub(crate) fn disk_of_staged(&self, failing: Vec<u64>) -> anyhow::Result<MemDisk> {
        disk(self.alloc, &self.staged, failing)
    }

    /// Takes over what a run left on the disks.
    pub(crate) fn keep(&mut self, files: &mut MemDisk, staged: &mut MemDisk) -> anyhow::Result<()> {
        keep(self.alloc, &mut self.files, files)?;
        keep(self.alloc, &mut self.staged, staged)
    }
}

/// The files that each disk has.
fn first_files(alloc: Global, gates: &[u8]) -> anyhow::Result<Vec<Named>> {
    let mut files = Vec::new(alloc);
    put(alloc, &mut files, ".plane-gates", gates)?;
    put(alloc, &mut files, ".plane-snapshot", b"")?;
    Ok(files)
}

/// Puts the bytes of a file, in its place by its name.
fn put(alloc: Global, files: &mut Vec<Named>, name: &str, bytes: &[u8]) -> anyhow::Result<()> {
    add(alloc, files, name)?;
    let bytes = Vec::from_slice(alloc, bytes)?;
    if let Some(file) = files.iter_mut().find(|file| file.name.as_str() == name) {
        file.bytes = bytes;
    }
    Ok(())
}

/// Adds an empty file where there is none of this name.
fn add(alloc: Global, files: &mut Vec<Named>, name: &str) -> anyhow::Result<()> {
    if files.iter().any(|file| file.name.as_str() == name) {
        return Ok(());
    }
    let new = Named {
        name: String::from_str(alloc, name)?,
        bytes: Vec::new(alloc),
    };
    let place = files
        .iter()
        .take_while(|file| file.name.as_str() < name)
        .count();
    if place > files.len() {
        return Err(anyhow::anyhow!("no such place"));
    }
    files.insert(place, new)?;
    Ok(())
}

/// Gives the bytes of a file.
fn give(files: &[Named], name: &str, out: &mut Vec<u8>) -> anyhow::Result<()> {
    let Some(file) = files.iter().find(|file| file.name.as_str() == name) else {
        return Err(anyhow::anyhow!("no such file"));
    };
    out.extend_from_slice(&file.bytes)?;
    Ok(())
}

/// A disk of these files, whose calls of these numbers fail.
fn disk(alloc: Global, files: &[Named], failing: Vec<u64>) -> anyhow::Result<MemDisk> {
    let mut list = Vec::new(alloc);
    for file in files {
        list.push(MemFile {
            name: Text::from_bytes(alloc, file.name.as_bytes())?,
            bytes: Text::from_bytes(alloc, &file.bytes)?,
        })?;
    }
    if list.len() > MOST_FILES || !are_disk_names(&file_names(alloc, &list)?) {
        return Err(anyhow::anyhow!("no names of a disk"));
    }
    Ok(MemDisk::new(alloc, list, failing, None)?)
}

/// Takes over the files of a disk.
fn keep(alloc: Global, files: &mut [Named], disk: &mut MemDisk) -> anyhow::Result<()> {
    let mut number = 0u32;
    for file in files.iter_mut() {
        file.bytes = read(alloc, disk, number)?;
        number = number.saturating_add(1);
    }
    Ok(())
}

/// Reads a file of which a read has failed.
fn again(disk: &mut MemDisk, number: u32, into: &mut [u8]) -> anyhow::Result<usize> {
    if number >= disk.count() {
        return Err(anyhow::anyhow!("no such file"));
    }
    Ok(disk.read(number, 0, into)?)
}

/// The bytes of a file of a disk.
fn read(alloc: Global, disk: &mut MemDisk, number: u32) -> anyhow::Result<Vec<u8>> {
    if number >= disk.count() {
        return Err(anyhow::anyhow!("no such file"));
    }
    let mut bytes = vec![in alloc; 0u8; usize::try_from(disk.size(number))?]?;
    let count = match disk.read(number, 0, &mut bytes) {
        Ok(count) => count,
        Err(Failed) => again(disk, number, &mut bytes)?,
    };
    bytes.truncate(count);
    Ok(bytes)
}
