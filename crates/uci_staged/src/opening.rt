//! How staged changes are read.
ghost use Rattle.std.specs.Prelude.{◌≡◌, ◌≤◌, ◌<◌, ◌++◌, ℕ, length, map, IfOk, IfErr, OnOk};
ghost use Rattle.std.specs.List.{AllByRecursion};
ghost use Rattle.plane_disk.specs.View.{IsFile};
ghost use Rattle.uci_staged.specs.Kept.{changes_of, IsStagedOn, ReadsOn};
ghost use Rattle.uci_staged.specs.Opening.{HasRead, own_change};
ghost use Rattle.uci_staged.specs.StagedError.{DiskRefuses};

use crate::file::read_file;
use crate::{Staged, StagedChange, StagedError};
use plane_disk::Disk;
use plane_io::Memory;
use std::alloc::Global;
use uci_delta::{Delta, read_deltas};

impl Staged {
    /// Reads what the command line, holder 0, has staged. What is no change in a text is passed
    /// over.
    ///
    /// # Errors
    ///
    /// `DiskFailed` only where the disk failed, and `Memory`.
    pub fn open<T: Disk>(alloc: Global, disk: &mut T) -> Result<Staged, StagedError>
        ensures reads { ReadsOn (T.view disk.old) (T.view disk.new) }
        ensures on { IfOk result (λ staged. IsStagedOn staged (T.view disk.new)) }
        ensures own { IfOk result (λ staged.
            AllByRecursion (λ change. change.holder ≡ 0) (changes_of staged)) }
        ensures refused { IfErr result (DiskRefuses (T.view disk.old) (T.view disk.new)) }
    {
        let mut changes = Vec::new(alloc);
        let count = disk.count();
        for file in 2..count {
            match read_changes(alloc, disk, file, &mut changes) {
                Ok(()) => {}
                Err(error) => return Err(error),
            }
        }
        Ok(Staged { changes })
    }
}

/// Reads the changes of the package of a file, behind these.
fn read_changes<T: Disk>(
    alloc: Global,
    disk: &mut T,
    file: u32,
    changes: &mut Vec<StagedChange>,
) -> Result<(), StagedError>
    requires { IsFile (T.view disk.old) file }
    ensures reads { ReadsOn (T.view disk.old) (T.view disk.new) }
    ensures read { OnOk result
        (HasRead (T.view disk.old) file changes.old.items changes.new.items) }
    ensures refused { IfErr result (DiskRefuses (T.view disk.old) (T.view disk.new)) }
{
    let text = match read_file(alloc, disk, file) {
        Ok(text) => text,
        Err(error) => return Err(error),
    };
    let Ok(deltas) = read_deltas(alloc, disk.name(file), &text) else {
        return Err(StagedError::Memory);
    };
    let Ok(()) = push_all(changes, file, deltas.into_vec()) else {
        return Err(StagedError::Memory);
    };
    Ok(())
}

/// Adds changes of holder 0.
fn push_all(changes: &mut Vec<StagedChange>, file: u32, deltas: Vec<Delta>) -> Result<(), Memory>
    ensures { OnOk result (changes.new.items ≡ changes.old.items
        ++ map (own_change file) deltas.items) }
{
    for delta in deltas {
        changes.push(StagedChange {
            holder: 0,
            file,
            delta,
        })?;
    }
    Ok(())
}
