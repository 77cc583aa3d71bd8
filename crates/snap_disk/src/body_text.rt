ghost use Rattle.std.specs.Prelude.{◌≡◌, ◌<◌, ◌++◌, ◌^◌, length, IfOk, OnOk};
ghost use Rattle.plane_disk.specs.Names.{name_at};
ghost use Rattle.plane_disk.specs.View.{IsFile};
ghost use Rattle.snap_disk.specs.BodyText.{file_text, body_text};
ghost use Rattle.snap_disk.specs.Phase.{ArePackageFiles};

use crate::NewFile;
use crate::kept::Kept;
use plane_disk::Disk;
use plane_io::Memory;
use std::alloc::Global;

/// The version of the bodies that are written: they hold the files that a begin writes, and no
/// other.
const VERSION: u8 = 2;

/// The text of a body.
pub(crate) fn body_text<D: Disk>(alloc: Global, disk: &D, kept: &Kept) -> Result<Vec<u8>, Memory>
    requires files { ArePackageFiles (length (D.view disk.now).names) kept.now.files }
    requires few { length kept.now.files < 2 ^ 32 }
    ensures { IfOk result (λ body. body.items ≡ body_text (D.view disk.now).names 2 kept.now) }
{
    // The names of a disk are short.
    let _count = disk.count();
    let files = kept.files.as_slice();
    let mut body = Vec::new(alloc);
    body.push(VERSION)?;
    body.extend_from_slice(&kept.pending.deadline.to_be_bytes())?;
    body.extend_from_slice(&kept.pending.holder.to_be_bytes())?;
    body.extend_from_slice(&(files.len() as u32).to_be_bytes())?;
    for file in files {
        append_file(disk, &mut body, file)?;
    }
    Ok(body)
}

fn append_file<D: Disk>(disk: &D, body: &mut Vec<u8>, file: &NewFile) -> Result<(), Memory>
    requires number { IsFile (D.view disk.now) file.now.file }
    requires short { length (name_at (D.view disk.now).names file.now.file) < 2 ^ 8 }
    requires small { length file.now.bytes < 2 ^ 32 }
    ensures { OnOk result
        (body.new.items ≡ body.old.items ++ file_text (D.view disk.now).names file.now) }
{
    let name = disk.name(file.file);
    let bytes = file.bytes.as_bytes();
    body.push(name.len() as u8)?;
    body.extend_from_slice(name)?;
    body.extend_from_slice(&(bytes.len() as u32).to_be_bytes())?;
    body.extend_from_slice(bytes)?;
    Ok(())
}
