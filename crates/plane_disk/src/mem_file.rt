ghost use Rattle.std.specs.Prelude.{◌≡◌, IfOk};
ghost use Rattle.plane_disk.specs.MemDisk.{names_of};

use plane_io::{Memory, Text};
use std::alloc::Global;

/// A file of a disk in memory.
#[derive(Drop)]
pub struct MemFile {
    pub name: Text,
    pub bytes: Text,
}

/// The names of the files, in order.
pub fn file_names(alloc: Global, files: &[MemFile]) -> Result<Vec<Text>, Memory>
    ensures { IfOk result (λ names. names.items ≡ names_of files.now) }
{
    let mut names = Vec::new(alloc);
    for file in files {
        names.push(file.name.copy()?)?;
    }
    Ok(names)
}
