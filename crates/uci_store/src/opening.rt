//! How a store is opened.
ghost use Rattle.std.specs.Prelude.{ℕ, ◌≡◌, ◌≤◌, ◌-◌, ◌+◌, false, drop, take, length, Some, IfOk};
ghost use Rattle.std.specs.Prelude.{IfErr, OnOk, IsTrue, ◌↔◌};
ghost use Rattle.std.specs.List.{AllByRecursion};
ghost use Rattle.plane_disk.specs.Files.{Files};
ghost use Rattle.snap_disk.specs.Images.{LeavesOnly, SameDisk};
ghost use Rattle.snap_disk.specs.Opening.{OpensGiving, FromImage, OpensFrom};
ghost use Rattle.uci_text.specs.declared.byte_class.ByteClass.TheVariants.{PackageName};
ghost use Rattle.uci_text.specs.Table.{IsNameOf};
ghost use Rattle.uci_staged.specs.Kept.{ReadsOn};
ghost use Rattle.uci_store.specs.Store.{names_of, files_of, staged_in, has_failed, IsOnFiles};
ghost use Rattle.uci_store.specs.Store.{IsOnStaged};
ghost use Rattle.uci_store.specs.Opening.{OpenRefuses, AreOwn};

use crate::{Store, StoreError};
use plane_disk::Disk;
use plane_io::{Memory, Text};
use snap_disk::{Snap, SnapError};
use std::alloc::Global;
use uci_staged::{Staged, StagedError};

impl Store {
    /// Opens the folder of the packages and that of the command line's staged changes, which have
    /// the same packages. Each file is read once. What a stop left of a commit or of an apply is
    /// settled as [`Snap::open`] does.
    ///
    /// # Errors
    ///
    /// Those of [`Snap::open`]; `DiskFailed` only where a disk failed; `Memory`. One that failed
    /// may be called again.
    pub fn open<D: Disk, T: Disk>(
        alloc: Global,
        files: &mut D,
        staged: &mut T,
        now: u64,
    ) -> Result<Store, StoreError>
        requires { (T.view staged.old).names ≡ (D.view files.old).names }
        ensures same { SameDisk (D.view files.old) (D.view files.new) }
        ensures reads { ReadsOn (T.view staged.old) (T.view staged.new) }
        ensures gives { IfOk result (λ store. (read : Files) → (D.view files.old).seen ≡ Some read →
            OpensGiving (D.view files.old).names read now (files_of store)) }
        ensures files { IfOk result (λ store. IsOnFiles store (D.view files.new)) }
        ensures staged { IfOk result (λ store. IsOnStaged store (T.view staged.new)) }
        ensures own { IfOk result (λ store. AreOwn (staged_in store)) }
        ensures ready { IfOk result (λ store. has_failed store ≡ false) }
        ensures images { (read : Files) → (D.view files.old).seen ≡ Some read →
            LeavesOnly (D.view files.old) (D.view files.new) (FromImage now (D.view files.old)) }
        ensures after { OnOk result ((read : Files) → (D.view files.old).seen ≡ Some read →
            (image : Files) → (D.view files.new).is_image image →
            OpensFrom (D.view files.old).names now image read) }
        ensures refused { IfErr result (OpenRefuses (D.view files.old) (D.view files.new)
            (T.view staged.old) (T.view staged.new) now) }
    {
        let snap = match Snap::open(alloc, files, now) {
            Ok(snap) => snap,
            Err(SnapError::Memory) => return Err(StoreError::Memory),
            Err(error) => return Err(StoreError::Snap(error)),
        };
        let staged = match Staged::open(alloc, staged) {
            Ok(staged) => staged,
            Err(StagedError::DiskFailed) => return Err(StoreError::Snap(SnapError::DiskFailed)),
            Err(StagedError::Memory) => return Err(StoreError::Memory),
        };
        let Ok(packages) = read_names(alloc, files) else {
            return Err(StoreError::Memory);
        };
        Ok(Store {
            packages,
            snap,
            staged,
            failed: false,
        })
    }
}

/// The names of the packages.
fn read_names<D: Disk>(alloc: Global, disk: &D) -> Result<Vec<Text>, Memory>
    ensures is { IfOk result (λ names. names.items ≡ drop 2 (D.view disk.now).names) }
    ensures named { IfOk result (λ names.
        AllByRecursion (IsNameOf PackageName) names.items) }
{
    let mut names = Vec::new(alloc);
    for file in 2..disk.count() {
        names.push(Text::from_bytes(alloc, disk.name(file))?)?;
    }
    Ok(names)
}

/// Whether two disks have the same packages.
pub fn have_same_packages<D: Disk, T: Disk>(files: &D, staged: &T) -> bool
    ensures { IsTrue result ↔ ((T.view staged.now).names ≡ (D.view files.now).names) }
{
    if staged.count() != files.count() {
        return false;
    }
    for file in 0..files.count() {
        if staged.name(file) != files.name(file) {
            return false;
        }
    }
    true
}
