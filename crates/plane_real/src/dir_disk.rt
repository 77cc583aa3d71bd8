ghost use Rattle.std.specs.Prelude.{◌≡◌, ◌-◌, min, length, Ok, IfOk};
ghost use Rattle.plane_words.specs.Causes.{HasCause};
ghost use Rattle.plane_real.specs.Folder.{view_of, with_packages};

use plane_disk::{Disk, are_disk_names, is_package_name};
use plane_io::{Failed, Text};
use std::alloc::Global;
use std::fs::{File, OpenOptions};
use std::io::ErrorKind;
use std::marker::Model;
use std::os::unix::fs::FileExt;
use std::rt::Files;
use std::{fs, io};

/// An open file, with its size in bytes.
#[derive(Drop)]
struct DirFile {
    file: File,
    size: u64,
}

/// A disk over a folder. Nobody else may use the folder meanwhile. After a sync that failed each
/// later one fails, because the system tells only once that it lost what was written.
#[derive(Drop)]
pub struct DirDisk {
    names: Vec<Text>,
    files: Vec<DirFile>,
    has_failed_to_sync: bool,
    faults: u64,
}

impl Model for DirDisk {
    ghost use Rattle.std.specs.Prelude.{◌≡◌, ◌<◌, ◌^◌, length};
    ghost use Rattle.plane_disk.specs.Names.{AreDiskNames};
    ghost use Rattle.plane_real.specs.Folder.{DiskOverFolder};

    ghost Value = { DiskOverFolder };

    ghost view = { λ disk. record { names = disk.names.items; faults = disk.faults } };

    ghost invariant = { λ disk. AreDiskNames disk.names.items
        × (length disk.files.items ≡ length disk.names.items)
        × (length disk.names.items < 2 ^ 32) };
}

impl DirFile {
    /// Opens a file of a folder, and makes an empty one where it is missing.
    fn open<R: Files<File = File>>(
        rt: &R,
        alloc: Global,
        folder: &str,
        name: &Text,
    ) -> io::Result<DirFile> {
        let Ok(name) = str::from_utf8(name.as_bytes()) else {
            return Err(io::Error::from(ErrorKind::InvalidFilename));
        };
        let path = format!(in alloc; "{folder}/{name}")?;
        let mut options = OpenOptions::new();
        options.read(true).write(true).create(true);
        let file = options.open(rt, path.as_str())?;
        let size = file.metadata()?.len();
        Ok(DirFile { file, size })
    }

    /// Reads as many bytes as the file has from a place on, up to the length of `into`.
    fn read(&self, at: u64, into: &mut [u8]) -> io::Result<usize>
        ensures { IfOk result (λ count. count ≡ min (length into.new) (self.now.size - at)) }
    {
        let left = self.size.saturating_sub(at) as usize;
        let count = into.len().min(left);
        self.file.read_exact_at(&mut into[..count], at)?;
        Ok(count)
    }

    /// Writes bytes over the file from a place on.
    fn write(&mut self, at: u64, bytes: &[u8]) -> io::Result<()> {
        let written = self.file.write_all_at(bytes, at);
        self.size = self.file.metadata()?.len();
        written
    }

    /// Cuts the file to a size; one that is no longer stays.
    fn cut(&mut self, size: u64) -> io::Result<()> {
        if self.size <= size {
            return Ok(());
        }
        let cut = self.file.set_len(size);
        self.size = self.file.metadata()?.len();
        cut
    }

    /// Writes two zero bytes into a file that has not two bytes yet, and makes it whole.
    fn close_gates(&mut self) -> io::Result<()> {
        if self.size < 2 {
            self.write(0, &[0, 0])?;
        }
        self.file.sync_all()
    }
}

/// A text in memory of its own.
fn text(alloc: Global, bytes: &[u8]) -> io::Result<Text>
    ensures { IfOk result (λ text. text ≡ bytes.now) }
{
    Ok(Text::from_vec(Vec::from_slice(alloc, bytes)?))
}

/// The names of the files of a disk that has these packages.
fn disk_names(alloc: Global, packages: &[Text]) -> io::Result<Vec<Text>>
    ensures { IfOk result (λ names. names.items ≡ with_packages packages.now) }
{
    let mut names = Vec::new(alloc);
    names.push(text(alloc, b".plane-gates")?)?;
    names.push(text(alloc, b".plane-snapshot")?)?;
    for package in packages {
        names.push(text(alloc, package.as_bytes())?)?;
    }
    Ok(names)
}

/// The names of the package files of a folder, in byte order.
fn package_names<R: Files + Alloc + Clone + Drop>(
    rt: &R,
    alloc: Global,
    folder: &str,
) -> io::Result<Vec<Text>> {
    let mut names = Vec::new(alloc);
    for entry in fs::read_dir(rt, folder)? {
        let entry = match entry {
            Err(error) if error.kind() == ErrorKind::InvalidFilename => continue,
            other => other?,
        };
        let name = entry.file_name().as_bytes();
        if is_package_name(name) && fs::metadata(rt, entry.path())?.is_file() {
            names.push(text(alloc, name)?)?;
        }
    }
    names.sort_unstable();
    Ok(names)
}

/// Whether a folder has a file of that name.
fn has_file<R: Files<File = File>>(
    rt: &R,
    alloc: Global,
    folder: &str,
    name: &str,
) -> io::Result<bool> {
    let path = format!(in alloc; "{folder}/{name}")?;
    Ok(fs::metadata(rt, path.as_str()).is_ok())
}

/// What a call of the system gave; its failure is counted.
fn counted<T: Drop>(faults: &mut u64, given: io::Result<T>) -> Result<T, Failed>
    ensures cause { HasCause faults.old faults.new result }
    ensures value { IfOk result (λ value. given ≡ Ok value) }
{
    match given {
        Ok(value) => Ok(value),
        Err(_) => {
            *faults = faults.saturating_add(1);
            Err(Failed)
        }
    }
}

/// Makes the files whole.
fn sync_all(files: &[DirFile]) -> io::Result<()> {
    for file in files {
        file.file.sync_all()?;
    }
    Ok(())
}

impl DirDisk {
    /// The package files of a folder, and the two files that no package has, which are made where
    /// they are missing: the gates of two zero bytes, and an empty snapshot.
    ///
    /// # Errors
    ///
    /// Where the system does not list the folder, or open, make or keep a file.
    pub fn open<R: Files<File = File> + Alloc + Clone + Drop>(
        rt: &R,
        alloc: Global,
        folder: &str,
    ) -> io::Result<DirDisk>
        ensures { IfOk result (λ disk. disk.faults ≡ 0) }
    {
        let packages = package_names(rt, alloc, folder)?;
        DirDisk::with_packages(rt, alloc, folder, &packages)
    }

    /// The files of these packages in a folder, which is made where it is missing, and in it an
    /// empty file for each package that has none.
    ///
    /// # Errors
    ///
    /// Where the names are not those of packages in byte order, each once, and where the system
    /// does not make the folder, or open, make or keep a file.
    pub fn open_staged<R: Files<File = File>>(
        rt: &R,
        alloc: Global,
        folder: &str,
        packages: &[Text],
    ) -> io::Result<DirDisk>
        ensures names { IfOk result (λ disk. disk.names ≡ with_packages packages.now) }
        ensures faults { IfOk result (λ disk. disk.faults ≡ 0) }
    {
        fs::create_dir_all(rt, folder)?;
        DirDisk::with_packages(rt, alloc, folder, packages)
    }

    /// The files of these packages in a folder, which are made where they are missing.
    fn with_packages<R: Files<File = File>>(
        rt: &R,
        alloc: Global,
        folder: &str,
        packages: &[Text],
    ) -> io::Result<DirDisk>
        ensures names { IfOk result (λ disk. disk.names ≡ with_packages packages.now) }
        ensures faults { IfOk result (λ disk. disk.faults ≡ 0) }
    {
        let names = disk_names(alloc, packages)?;
        if !are_disk_names(&names) || u32::try_from(names.len()).is_err() {
            return Err(io::Error::from(ErrorKind::InvalidInput));
        }
        let had_gates = has_file(rt, alloc, folder, ".plane-gates")?;
        let mut files = Vec::new(alloc);
        for name in &names {
            files.push(DirFile::open(rt, alloc, folder, name)?)?;
        }
        // Gates that a stop left half made stand beside a snapshot that nobody has written yet.
        if !had_gates || files[1].size == 0 {
            files[0].close_gates()?;
        }
        fs::open(rt, folder)?.sync_all()?;
        Ok(DirDisk {
            names,
            files,
            has_failed_to_sync: false,
            faults: 0,
        })
    }
}

impl Disk for DirDisk {
    ghost use Rattle.plane_real.specs.Folder.{view_of};

    ghost view = { view_of };

    ghost sound = { λ disk. record {
      reads_image = record {};
      counted = record {};
      now_counts = λ image is. record {};
      now_alone = λ image was. record {};
      wider = λ earlier later image before was. record {};
    } };

    fn count(&self) -> u32 {
        self.names.len() as u32
    }

    fn name(&self, file: u32) -> &[u8] {
        self.names[file as usize].as_bytes()
    }

    fn size(&self, file: u32) -> u64 {
        self.files[file as usize].size
    }

    fn read(&mut self, file: u32, at: u64, into: &mut [u8]) -> Result<usize, Failed> {
        let read = self.files[file as usize].read(at, into);
        counted(&mut self.faults, read)
    }

    fn write_at(&mut self, file: u32, at: u64, bytes: &[u8]) -> Result<(), Failed> {
        let written = self.files[file as usize].write(at, bytes);
        counted(&mut self.faults, written)
    }

    fn cut(&mut self, file: u32, size: u64) -> Result<(), Failed> {
        let cut = self.files[file as usize].cut(size);
        counted(&mut self.faults, cut)
    }

    fn sync(&mut self) -> Result<(), Failed> {
        let synced = if self.has_failed_to_sync {
            Err(io::Error::from(ErrorKind::Other))
        } else {
            sync_all(&self.files)
        };
        self.has_failed_to_sync = synced.is_err();
        counted(&mut self.faults, synced)
    }
}
