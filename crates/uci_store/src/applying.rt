//! How all that a holder has staged is applied at once.
ghost use Rattle.std.specs.Prelude.{◌≡◌, ◌≢◌, ◌≤◌, ◌<◌, ◌+◌, length, true, IfOk, IfErr, OnOk};
ghost use Rattle.std.specs.List.{AllByRecursion};
ghost use Rattle.snap_disk.specs.Images.{SameDisk};
ghost use Rattle.snap_disk.specs.Open.{begun};
ghost use Rattle.snap_disk.specs.Phase.{ArePackageFiles, Stands};
ghost use Rattle.uci_staged.specs.Kept.{Follows, ChangesPackages};
ghost use Rattle.uci_store.specs.Store.{names_of, files_of, has_failed, IsStore, IsOnFiles};
ghost use Rattle.uci_store.specs.Store.{IsOnStaged};
ghost use Rattle.uci_store.specs.Staging.{IsWhole};
ghost use Rattle.uci_store.specs.Stops.{StopLeaves, IsLeft, UnlessFailed};
ghost use Rattle.uci_store.specs.Committing.{IsFree, IsNewFile, WriteRefuses};
ghost use Rattle.uci_store.specs.Applying as spec;
ghost use Rattle.uci_store.specs.Applying.{EachBefore, AreNewFiles, AreSoFar, HasWrittenAll};
ghost use Rattle.uci_store.specs.Applying.{AppliesTo, HasApplied, NewFilesRefuse, ApplyStops};
ghost use Rattle.uci_store.specs.Applying.{ApplyRefuses};

use crate::{Store, StoreError};
use plane_disk::Disk;
use snap_disk::{NewFile, Pending};
use std::alloc::Global;

/// The new files so far, and how large the first is that does not fit.
#[derive(Drop)]
struct NewFiles {
    files: Vec<NewFile>,
    large: Option<u64>,
}

impl Store {
    /// Writes all packages of which the holder has staged something, as the holder sees them, at
    /// once, and drops all that the holder has staged once the files are durable. With a deadline
    /// the new files wait for the holder's confirm, without one they stay.
    ///
    /// # Errors
    ///
    /// In this order: `Reopen` exactly after a disk failed; `Waiting` exactly where an apply waits;
    /// `NothingStaged` exactly where the holder has staged nothing; `Parse` exactly where one of
    /// the files does not read, with the fault of the first one; `TooLarge` exactly where one of
    /// the new files passes 1,048,576 bytes, with the size of the first one. `DiskFailed` only
    /// where a disk failed; then the files may be the new ones. `Memory`. But for `DiskFailed` the
    /// disks are untouched, and the staged one is untouched wherever the files are those before.
    pub fn apply<D: Disk, T: Disk>(
        &mut self,
        alloc: Global,
        files: &mut D,
        staged: &mut T,
        holder: u128,
        deadline: Option<u64>,
    ) -> Result<(), StoreError>
        requires files { IsOnFiles self.old (D.view files.old) }
        requires staged { IsOnStaged self.old (T.view staged.old) }
        ensures same { SameDisk (D.view files.old) (D.view files.new) }
        ensures follows { Follows (T.view staged.old) (T.view staged.new) }
        ensures changes { ChangesPackages (T.view staged.old) (T.view staged.new) }
        ensures aside { holder ≢ 0 → staged.new ≡ staged.old }
        ensures files { IsOnFiles self.new (D.view files.new) }
        ensures staged { IsOnStaged self.new (T.view staged.new) }
        ensures names { names_of self.new ≡ names_of self.old }
        ensures images { StopLeaves self.old (D.view files.old) (D.view files.new)
            (AppliesTo self.old holder deadline) }
        ensures done { OnOk result (HasApplied self.old self.new holder deadline) }
        ensures left { IfErr result (IsLeft self.old self.new
            (AppliesTo self.old holder deadline) (staged.new ≡ staged.old)) }
        ensures refused { IfErr result (ApplyRefuses self.old holder
            (D.view files.old) (D.view files.new) (T.view staged.old) (T.view staged.new)) }
        ensures untouched { IfErr result
            (UnlessFailed ((files.new ≡ files.old) × (staged.new ≡ staged.old))) }
        ensures closes { IsWhole result (has_failed self.old) (has_failed self.new) }
    {
        let new = self.apply_files(alloc, holder)?;
        self.write_all(alloc, files, staged, holder, new, wait_of(holder, deadline))
    }

    /// Writes new files, and then drops all that the holder has staged.
    fn write_all<D: Disk, T: Disk>(
        &mut self,
        alloc: Global,
        files: &mut D,
        staged: &mut T,
        holder: u128,
        new: Vec<NewFile>,
        wait: Option<Pending>,
    ) -> Result<(), StoreError>
        requires files { IsOnFiles self.old (D.view files.old) }
        requires staged { IsOnStaged self.old (T.view staged.old) }
        requires free { IsFree self.old }
        requires packages { ArePackageFiles (length (names_of self.old) + 2) new.items }
        ensures same { SameDisk (D.view files.old) (D.view files.new) }
        ensures follows { Follows (T.view staged.old) (T.view staged.new) }
        ensures changes { ChangesPackages (T.view staged.old) (T.view staged.new) }
        ensures aside { holder ≢ 0 → staged.new ≡ staged.old }
        ensures files { IsOnFiles self.new (D.view files.new) }
        ensures staged { IsOnStaged self.new (T.view staged.new) }
        ensures names { names_of self.new ≡ names_of self.old }
        ensures images { StopLeaves self.old (D.view files.old) (D.view files.new)
            (λ after. after ≡ begun (files_of self.old) new.items wait) }
        ensures done { OnOk result (HasWrittenAll self.old self.new holder new.items wait) }
        ensures left { IfErr result
            (IsLeft self.old self.new (λ after. after ≡ begun (files_of self.old) new.items wait)
            (staged.new ≡ staged.old)) }
        ensures refused { IfErr result (WriteRefuses holder
            (D.view files.old) (D.view files.new) (T.view staged.old) (T.view staged.new)) }
        ensures untouched { IfErr result
            (UnlessFailed ((files.new ≡ files.old) × (staged.new ≡ staged.old))) }
        ensures closes { IsWhole result (has_failed self.old) (has_failed self.new) }
    {
        self.put(alloc, files, new, wait)?;
        self.drop_holder(staged, holder)
    }

    /// What an apply is to write.
    fn apply_files(&self, alloc: Global, holder: u128) -> Result<Vec<NewFile>, StoreError>
        requires { IsStore self.now }
        ensures planned { IfOk result (λ new. AreNewFiles self.now holder new.items) }
        ensures refused { IfErr result (ApplyStops self.now holder) }
    {
        self.refuse_failed()?;
        self.refuse_waiting()?;
        if !self.staged.has_any(holder) {
            return Err(StoreError::NothingStaged);
        }
        self.new_files(alloc, holder)
    }

    /// The new files of all packages of which the holder has staged something.
    fn new_files(&self, alloc: Global, holder: u128) -> Result<Vec<NewFile>, StoreError>
        requires { IsStore self.now }
        ensures each { IfOk result (λ new. AllByRecursion (IsNewFile self.now holder) new.items) }
        ensures all { IfOk result (λ new.
            EachBefore self.now holder (length (names_of self.now) + 2) (Stands new.items)) }
        ensures refused { IfErr result (NewFilesRefuse self.now holder) }
    {
        let mut so_far = NewFiles {
            files: Vec::new(alloc),
            large: None,
        };
        for place in 0..self.packages.len() {
            self.take_file(alloc, holder, place, &mut so_far)?;
        }
        match so_far.large {
            None => Ok(so_far.files),
            Some(bytes) => Err(StoreError::TooLarge { bytes }),
        }
    }

    /// Takes the new file of the package at that place, where something is staged of it.
    fn take_file(
        &self,
        alloc: Global,
        holder: u128,
        place: usize,
        so_far: &mut NewFiles,
    ) -> Result<(), StoreError>
        requires store { IsStore self.now }
        requires within { place < length (names_of self.now) }
        requires so_far { AreSoFar self.now holder (place + 2)
            so_far.old.files.items so_far.old.large }
        ensures more { OnOk result
            (AreSoFar self.now holder (place + 3) so_far.new.files.items so_far.new.large) }
        ensures refused { IfErr result (NewFilesRefuse self.now holder) }
    {
        let file = place as u32 + 2;
        if !self.staged.has(holder, file) {
            return Ok(());
        }
        match self.new_file(alloc, holder, self.packages[place].as_bytes(), file) {
            Ok(new) => Ok(so_far.files.push(new)?),
            Err(StoreError::TooLarge { bytes }) => {
                so_far.large = Some(so_far.large.unwrap_or(bytes));
                Ok(())
            }
            Err(error) => Err(error),
        }
    }
}

/// Until when the holder's apply waits, where it has a deadline.
fn wait_of(holder: u128, deadline: Option<u64>) -> Option<Pending>
    ensures { result ≡ spec.wait_of holder deadline }
{
    deadline.map(|deadline| Pending { deadline, holder })
}
