use crate::bench::Bench;
use crate::desk::{Disks, open};
use plane_disk::{Disk, MemDisk, MemFile, are_disk_names, file_names};
use plane_io::Text;
use rpc_session::Sessions;
use std::alloc::Global;

/// Two gates that are closed.
const CLOSED: &[u8] = b"\0\0";

/// A package, and what the command line has staged of it.
#[derive(Drop)]
struct Package {
    name: Text,
    text: Vec<u8>,
    staged: Text,
}

/// The packages of the disks that are made.
#[derive(Drop)]
pub(crate) struct Folder {
    packages: Vec<Package>,
}

impl Folder {
    /// No packages.
    pub(crate) fn new(alloc: Global) -> Folder {
        Folder {
            packages: Vec::new(alloc),
        }
    }

    /// Reads packages, each behind a line `=== NAME`.
    pub(crate) fn read_packages(&mut self, alloc: Global, input: &[u8]) -> anyhow::Result<()> {
        self.packages = Vec::new(alloc);
        for line in input.split_inclusive(|byte| *byte == b'\n') {
            if let Some(name) = line.strip_prefix(b"=== ") {
                self.packages.push(Package {
                    name: Text::from_bytes(alloc, name.strip_suffix(b"\n").unwrap_or(name))?,
                    text: Vec::new(alloc),
                    staged: Text::from_bytes(alloc, b"")?,
                })?;
                continue;
            }
            let Some(package) = self.packages.last_mut() else {
                return Err(anyhow::anyhow!("a line in front of the first package"));
            };
            package.text.extend_from_slice(line)?;
        }
        Ok(())
    }

    /// Stages this text of a package.
    pub(crate) fn stage(&mut self, alloc: Global, name: &str, text: &[u8]) -> anyhow::Result<()> {
        for package in self.packages.iter_mut() {
            if package.name.as_bytes() == name.as_bytes() {
                package.staged = Text::from_bytes(alloc, text)?;
                return Ok(());
            }
        }
        Err(anyhow::anyhow!("no such package"))
    }

    /// What the files of the disk of the packages have at first.
    pub(crate) fn texts(&self, alloc: Global) -> anyhow::Result<Vec<Text>> {
        let mut texts = Vec::new(alloc);
        texts.push(Text::from_bytes(alloc, CLOSED)?)?;
        texts.push(Text::from_bytes(alloc, b"")?)?;
        for package in &self.packages {
            texts.push(Text::from_bytes(alloc, package.text.as_slice())?)?;
        }
        Ok(texts)
    }

    /// The disk of the packages.
    fn files(&self, alloc: Global, fuse: Option<u64>) -> anyhow::Result<MemDisk> {
        let mut files = heads(alloc, CLOSED)?;
        for package in &self.packages {
            files.push(MemFile {
                name: package.name.copy()?,
                bytes: Text::from_bytes(alloc, package.text.as_slice())?,
            })?;
        }
        disk_of(alloc, files, fuse)
    }

    /// The disk of the command line's own changes.
    pub(crate) fn staged(&self, alloc: Global) -> anyhow::Result<MemDisk> {
        let mut files = heads(alloc, b"")?;
        for package in &self.packages {
            files.push(MemFile {
                name: package.name.copy()?,
                bytes: package.staged.copy()?,
            })?;
        }
        disk_of(alloc, files, None)
    }
}

/// The two files that stand in front of the packages.
fn heads(alloc: Global, gates: &[u8]) -> anyhow::Result<Vec<MemFile>> {
    let mut files = Vec::new(alloc);
    files.push(MemFile {
        name: Text::from_bytes(alloc, b".plane-gates")?,
        bytes: Text::from_bytes(alloc, gates)?,
    })?;
    files.push(MemFile {
        name: Text::from_bytes(alloc, b".plane-snapshot")?,
        bytes: Text::from_bytes(alloc, b"")?,
    })?;
    Ok(files)
}

/// A disk with these files.
fn disk_of(alloc: Global, files: Vec<MemFile>, fuse: Option<u64>) -> anyhow::Result<MemDisk> {
    if !are_disk_names(&file_names(alloc, &files)?) || files.len() >= 1 << 32 {
        return Err(anyhow::anyhow!("no names of packages in their order"));
    }
    Ok(MemDisk::new(alloc, files, Vec::new(alloc), fuse)?)
}

/// The bytes that a read of a file gives.
pub(crate) fn bytes_of(alloc: Global, disk: &mut MemDisk, file: u32) -> anyhow::Result<Text> {
    if file >= disk.count() {
        return Err(anyhow::anyhow!("no such file"));
    }
    let mut bytes = vec![in alloc; 0u8; usize::try_from(disk.size(file))?]?;
    let count = disk.read(file, 0, &mut bytes).unwrap_or(0);
    bytes.truncate(count);
    Ok(Text::from_vec(bytes))
}

impl Bench {
    /// Makes the two disks.
    pub(crate) fn make_disks(&mut self, fuse: Option<u64>) -> anyhow::Result<()> {
        self.sessions = Sessions::new(self.alloc)?;
        self.desk = None;
        self.disks = Some(Disks {
            files: self.folder.files(self.alloc, fuse)?,
            staged: self.folder.staged(self.alloc)?,
        });
        Ok(())
    }

    /// The disks, which are given up.
    pub(crate) fn take_disks(&mut self) -> anyhow::Result<Disks> {
        if let Some(desk) = self.desk.take() {
            return Ok(desk.close());
        }
        match self.disks.take() {
            Some(disks) => Ok(disks),
            None => Err(anyhow::anyhow!("no disks")),
        }
    }

    /// Opens the disks.
    pub(crate) fn open(&mut self, now: u64, out: &mut Vec<u8>) -> anyhow::Result<()> {
        let disks = self.take_disks()?;
        match open(self.alloc, disks, now)? {
            Ok(desk) => self.desk = Some(desk),
            Err(disks) => {
                self.disks = Some(disks);
                out.extend_from_slice(b"not opened\n")?;
            }
        }
        Ok(())
    }
}
