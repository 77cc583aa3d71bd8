//! Files of staged changes.
ghost use Rattle.std.specs.Prelude.{ℕ, ◌≡◌, [], length, Some, OnOk, IfOk, IfErr};
ghost use Rattle.plane_words.specs.Causes.{HasCause};
ghost use Rattle.plane_disk.specs.Files.{Files, bytes_of, with_bytes};
ghost use Rattle.plane_disk.specs.View.{IsFile, Tells};
ghost use Rattle.uci_staged.specs.Kept.{Follows, ReadsOn, ChangesFile, HasFilled};
ghost use Rattle.uci_staged.specs.StagedError.{DiskRefuses};

use crate::StagedError;
use plane_disk::Disk;
use plane_io::Failed;
use std::alloc::Global;

/// The bytes of a file.
pub(crate) fn read_file<T: Disk>(
    alloc: Global,
    disk: &mut T,
    file: u32,
) -> Result<Vec<u8>, StagedError>
    requires { IsFile (T.view disk.old) file }
    ensures quiet { ReadsOn (T.view disk.old) (T.view disk.new) }
    ensures bytes { IfOk result (λ bytes. (files : Files) → (T.view disk.old).seen ≡ Some files →
        bytes.items ≡ bytes_of files file) }
    ensures refused { IfErr result (DiskRefuses (T.view disk.old) (T.view disk.new)) }
{
    let size = disk.size(file);
    let mut bytes = vec![in alloc; 0u8; size as usize]?;
    match disk.read(file, 0, &mut bytes) {
        Ok(count) => {
            bytes.truncate(count);
            Ok(bytes)
        }
        Err(_) => Err(StagedError::DiskFailed),
    }
}

/// Writes a file anew and whole.
pub(crate) fn fill<T: Disk>(disk: &mut T, file: u32, bytes: &[u8]) -> Result<(), Failed>
    requires { IsFile (T.view disk.old) file }
    ensures follows { Follows (T.view disk.old) (T.view disk.new) }
    ensures changes { ChangesFile file (T.view disk.old) (T.view disk.new) }
    ensures filled { OnOk result (HasFilled (T.view disk.old) (T.view disk.new) file bytes.now) }
    ensures cause { HasCause (T.view disk.old).faults (T.view disk.new).faults result }
{
    disk.cut(file, 0)?;
    disk.write_at(file, 0, bytes)?;
    Ok(())
}

/// Leaves a file empty.
pub(crate) fn empty<T: Disk>(disk: &mut T, file: u32) -> Result<(), Failed>
    requires { IsFile (T.view disk.old) file }
    ensures follows { Follows (T.view disk.old) (T.view disk.new) }
    ensures changes { ChangesFile file (T.view disk.old) (T.view disk.new) }
    ensures filled { OnOk result (HasFilled (T.view disk.old) (T.view disk.new) file []) }
    ensures cause { HasCause (T.view disk.old).faults (T.view disk.new).faults result }
{
    disk.cut(file, 0)?;
    Ok(())
}
