//! How files are written, and what was staged is dropped behind that.
ghost use Rattle.std.specs.Prelude.{◌≡◌, ◌≢◌, ◌≤◌, ◌<◌, ◌+◌, length, false, IfErr, OnOk, OnErr};
ghost use Rattle.snap_disk.specs.Images.{SameDisk};
ghost use Rattle.snap_disk.specs.Opened.{OpensAsEither};
ghost use Rattle.snap_disk.specs.Open.{ImagesSince, begun};
ghost use Rattle.snap_disk.specs.Phase.{IsPackageFile, ArePackageFiles};
ghost use Rattle.uci_staged.specs.Change.{without, forgotten};
ghost use Rattle.uci_staged.specs.Kept.{Follows, ChangesFile, ChangesPackages};
ghost use Rattle.uci_store.specs.Store.{names_of, snap_of, files_of, staged_in, has_failed};
ghost use Rattle.uci_store.specs.Store.{IsOnFiles, IsOnStaged};
ghost use Rattle.uci_store.specs.Staging.{IsWhole};
ghost use Rattle.uci_store.specs.Stops.{StopLeaves, IsLeft, UnlessFailed};
ghost use Rattle.uci_store.specs.Committing.{with_file, IsFree, HasWritten, WriteRefuses};
ghost use Rattle.uci_store.specs.Committing.{PutRefuses, DropRefuses};

use crate::{Store, StoreError};
use plane_disk::Disk;
use snap_disk::{NewFile, Pending, SnapError};
use std::alloc::Global;

impl Store {
    /// Writes the file of a package, and then drops what the holder has staged of it.
    pub(crate) fn write<D: Disk, T: Disk>(
        &mut self,
        alloc: Global,
        files: &mut D,
        staged: &mut T,
        holder: u128,
        new: NewFile,
    ) -> Result<(), StoreError>
        requires files { IsOnFiles self.old (D.view files.old) }
        requires staged { IsOnStaged self.old (T.view staged.old) }
        requires free { IsFree self.old }
        requires package { IsPackageFile (length (names_of self.old) + 2) new }
        ensures same { SameDisk (D.view files.old) (D.view files.new) }
        ensures follows { Follows (T.view staged.old) (T.view staged.new) }
        ensures changes { ChangesFile new.file (T.view staged.old) (T.view staged.new) }
        ensures aside { holder ≢ 0 → staged.new ≡ staged.old }
        ensures files { IsOnFiles self.new (D.view files.new) }
        ensures staged { IsOnStaged self.new (T.view staged.new) }
        ensures names { names_of self.new ≡ names_of self.old }
        ensures images { StopLeaves self.old (D.view files.old) (D.view files.new)
            (λ after. after ≡ with_file (files_of self.old) new) }
        ensures done { OnOk result (HasWritten self.old self.new holder new) }
        ensures left { IfErr result
            (IsLeft self.old self.new (λ after. after ≡ with_file (files_of self.old) new)
            (staged.new ≡ staged.old)) }
        ensures refused { IfErr result (WriteRefuses holder
            (D.view files.old) (D.view files.new) (T.view staged.old) (T.view staged.new)) }
        ensures untouched { IfErr result
            (UnlessFailed ((files.new ≡ files.old) × (staged.new ≡ staged.old))) }
        ensures closes { IsWhole result (has_failed self.old) (has_failed self.new) }
    {
        let file = new.file;
        let mut one = Vec::new(alloc);
        one.push(new)?;
        self.put(alloc, files, one, None)?;
        self.drop_package(staged, holder, file)
    }

    /// Writes new files.
    pub(crate) fn put<D: Disk>(
        &mut self,
        alloc: Global,
        files: &mut D,
        new: Vec<NewFile>,
        wait: Option<Pending>,
    ) -> Result<(), StoreError>
        requires files { IsOnFiles self.old (D.view files.old) }
        requires free { IsFree self.old }
        requires packages { ArePackageFiles (length (names_of self.old) + 2) new.items }
        ensures same { SameDisk (D.view files.old) (D.view files.new) }
        ensures files { IsOnFiles self.new (D.view files.new) }
        ensures names { names_of self.new ≡ names_of self.old }
        ensures staged { staged_in self.new ≡ staged_in self.old }
        ensures images { StopLeaves self.old (D.view files.old) (D.view files.new)
            (λ after. after ≡ begun (files_of self.old) new.items wait) }
        ensures done { OnOk result (files_of self.new ≡ begun (files_of self.old) new.items wait) }
        ensures kept { OnErr result (files_of self.new ≡ files_of self.old) }
        ensures refused { IfErr result (PutRefuses (D.view files.old) (D.view files.new)) }
        ensures untouched { IfErr result (UnlessFailed (files.new ≡ files.old)) }
        ensures closes { IsWhole result (has_failed self.old) (has_failed self.new) }
    {
        match self.snap.begin(alloc, files, new, wait) {
            Ok(()) => Ok(()),
            Err(error) => Err(self.failed_on(error)),
        }
    }

    /// Drops what the holder has staged of the package of that file.
    fn drop_package<T: Disk>(
        &mut self,
        staged: &mut T,
        holder: u128,
        file: u32,
    ) -> Result<(), StoreError>
        requires staged { IsOnStaged self.old (T.view staged.old) }
        requires ready { has_failed self.old ≡ false }
        requires low { 2 ≤ file }
        requires number { file < length (names_of self.old) + 2 }
        ensures follows { Follows (T.view staged.old) (T.view staged.new) }
        ensures changes { ChangesFile file (T.view staged.old) (T.view staged.new) }
        ensures aside { holder ≢ 0 → staged.new ≡ staged.old }
        ensures staged { IsOnStaged self.new (T.view staged.new) }
        ensures names { names_of self.new ≡ names_of self.old }
        ensures snap { snap_of self.new ≡ snap_of self.old }
        ensures done { OnOk result (staged_in self.new ≡ without holder file (staged_in self.old)) }
        ensures kept { OnErr result (staged_in self.new ≡ staged_in self.old) }
        ensures refused { IfErr result
            (DropRefuses holder (T.view staged.old) (T.view staged.new)) }
        ensures closes { IsWhole result (has_failed self.old) (has_failed self.new) }
    {
        match self.staged.drop_package(staged, holder, file) {
            Ok(()) => Ok(()),
            Err(_) => {
                self.failed = true;
                Err(StoreError::Snap(SnapError::DiskFailed))
            }
        }
    }

    /// Drops all that the holder has staged.
    pub(crate) fn drop_holder<T: Disk>(
        &mut self,
        staged: &mut T,
        holder: u128,
    ) -> Result<(), StoreError>
        requires staged { IsOnStaged self.old (T.view staged.old) }
        requires ready { has_failed self.old ≡ false }
        ensures follows { Follows (T.view staged.old) (T.view staged.new) }
        ensures changes { ChangesPackages (T.view staged.old) (T.view staged.new) }
        ensures aside { holder ≢ 0 → staged.new ≡ staged.old }
        ensures staged { IsOnStaged self.new (T.view staged.new) }
        ensures names { names_of self.new ≡ names_of self.old }
        ensures snap { snap_of self.new ≡ snap_of self.old }
        ensures done { OnOk result (staged_in self.new ≡ forgotten holder (staged_in self.old)) }
        ensures kept { OnErr result (staged_in self.new ≡ staged_in self.old) }
        ensures refused { IfErr result
            (DropRefuses holder (T.view staged.old) (T.view staged.new)) }
        ensures closes { IsWhole result (has_failed self.old) (has_failed self.new) }
    {
        match self.staged.drop_holder(staged, holder) {
            Ok(()) => Ok(()),
            Err(_) => {
                self.failed = true;
                Err(StoreError::Snap(SnapError::DiskFailed))
            }
        }
    }
}
