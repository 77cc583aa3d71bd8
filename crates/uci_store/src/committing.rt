//! How packages are committed.
ghost use Rattle.std.specs.Prelude.{◌≡◌, ◌≢◌, ◌≤◌, ◌<◌, ◌+◌, Option, Some, None, true, length};
ghost use Rattle.std.specs.Prelude.{IfOk, IfErr, OnOk};
ghost use Rattle.snap_disk.specs.Body.{most_bytes};
ghost use Rattle.snap_disk.specs.Images.{SameDisk};
ghost use Rattle.uci_staged.specs.Change.{has_deltas};
ghost use Rattle.uci_staged.specs.Kept.{Follows};
ghost use Rattle.uci_store.specs.Store.{names_of, name_of, staged_in, has_failed, IsStore};
ghost use Rattle.uci_store.specs.Store.{IsOnFiles, IsOnStaged};
ghost use Rattle.uci_store.specs.Staging.{ChangesPackage, IsWhole};
ghost use Rattle.uci_store.specs.Stops.{StopLeaves, IsLeft, UnlessFailed};
ghost use Rattle.uci_store.specs.Committing.{file_text, NothingToCommit, CommitsTo, ReplacesTo};
ghost use Rattle.uci_store.specs.Committing.{HasCommitted, HasReplaced, IsReplaceFile, IsNewFile};
ghost use Rattle.uci_store.specs.Committing.{PlansCommit, NewFileRefuses, PrintRefuses};
ghost use Rattle.uci_store.specs.Committing.{CommitStops, CommitRefuses, ReplaceStops};
ghost use Rattle.uci_store.specs.Committing.{ReplaceRefuses};

use crate::{Store, StoreError};
use plane_disk::Disk;
use plane_io::Text;
use snap_disk::NewFile;
use std::alloc::Global;
use uci_tree::{Package, print_package};

/// The most bytes that a package's file may have.
const MOST_BYTES: usize = 1_048_576;

impl Store {
    /// Writes the package as the holder sees it, and drops what the holder has staged of it once
    /// the file is durable. Where the holder has staged nothing of it, the file is not looked at
    /// and the disks are untouched.
    ///
    /// # Errors
    ///
    /// In this order: `Reopen` exactly after a disk failed; `NoPackage` exactly where no file has
    /// that name; `Waiting` exactly where an apply waits; `Parse` exactly where the file does not
    /// read; `TooLarge` exactly where the new file passes 1,048,576 bytes. `DiskFailed` only where
    /// a disk failed; then the files may be those of the commit. `Memory`. But for `DiskFailed` the
    /// disks are untouched, and the staged one is untouched wherever the files are those before.
    pub fn commit<D: Disk, T: Disk>(
        &mut self,
        alloc: Global,
        files: &mut D,
        staged: &mut T,
        holder: u128,
        package: &[u8],
    ) -> Result<(), StoreError>
        requires files { IsOnFiles self.old (D.view files.old) }
        requires staged { IsOnStaged self.old (T.view staged.old) }
        ensures same { SameDisk (D.view files.old) (D.view files.new) }
        ensures follows { Follows (T.view staged.old) (T.view staged.new) }
        ensures changes { ChangesPackage self.old «package».now
            (T.view staged.old) (T.view staged.new) }
        ensures aside { holder ≢ 0 → staged.new ≡ staged.old }
        ensures files { IsOnFiles self.new (D.view files.new) }
        ensures staged { IsOnStaged self.new (T.view staged.new) }
        ensures names { names_of self.new ≡ names_of self.old }
        ensures images { StopLeaves self.old (D.view files.old) (D.view files.new)
            (CommitsTo self.old holder «package».now) }
        ensures done { OnOk result (HasCommitted self.old self.new holder «package».now) }
        ensures rests { NothingToCommit self.old holder «package».now →
            (files.new ≡ files.old) × (staged.new ≡ staged.old) }
        ensures left { IfErr result (IsLeft self.old self.new
            (CommitsTo self.old holder «package».now) (staged.new ≡ staged.old)) }
        ensures refused { IfErr result (CommitRefuses self.old holder «package».now
            (D.view files.old) (D.view files.new) (T.view staged.old) (T.view staged.new)) }
        ensures untouched { IfErr result
            (UnlessFailed ((files.new ≡ files.old) × (staged.new ≡ staged.old))) }
        ensures closes { IsWhole result (has_failed self.old) (has_failed self.new) }
    {
        match self.commit_file(alloc, holder, package)? {
            Some(new) => self.write(alloc, files, staged, holder, new),
            None => Ok(()),
        }
    }

    /// Writes a package in place of what is committed under its name, and drops what the holder has
    /// staged of it once the file is durable.
    ///
    /// # Errors
    ///
    /// In this order: `Reopen` exactly after a disk failed; `NoPackage` exactly where no file has
    /// its name; `Waiting` exactly where an apply waits; `TooLarge` exactly where it passes
    /// 1,048,576 bytes. `DiskFailed` only where a disk failed; then the files may be the new ones.
    /// `Memory`. The disks are left as by a commit.
    pub fn replace<D: Disk, T: Disk>(
        &mut self,
        alloc: Global,
        files: &mut D,
        staged: &mut T,
        holder: u128,
        package: &Package,
    ) -> Result<(), StoreError>
        requires files { IsOnFiles self.old (D.view files.old) }
        requires staged { IsOnStaged self.old (T.view staged.old) }
        ensures same { SameDisk (D.view files.old) (D.view files.new) }
        ensures follows { Follows (T.view staged.old) (T.view staged.new) }
        ensures changes { ChangesPackage self.old «package».now.name
            (T.view staged.old) (T.view staged.new) }
        ensures aside { holder ≢ 0 → staged.new ≡ staged.old }
        ensures files { IsOnFiles self.new (D.view files.new) }
        ensures staged { IsOnStaged self.new (T.view staged.new) }
        ensures names { names_of self.new ≡ names_of self.old }
        ensures images { StopLeaves self.old (D.view files.old) (D.view files.new)
            (ReplacesTo self.old «package».now) }
        ensures done { OnOk result (HasReplaced self.old self.new holder «package».now) }
        ensures left { IfErr result (IsLeft self.old self.new
            (ReplacesTo self.old «package».now) (staged.new ≡ staged.old)) }
        ensures refused { IfErr result (ReplaceRefuses self.old holder «package».now
            (D.view files.old) (D.view files.new) (T.view staged.old) (T.view staged.new)) }
        ensures untouched { IfErr result
            (UnlessFailed ((files.new ≡ files.old) × (staged.new ≡ staged.old))) }
        ensures closes { IsWhole result (has_failed self.old) (has_failed self.new) }
    {
        let new = self.replace_file(alloc, package)?;
        self.write(alloc, files, staged, holder, new)
    }

    /// What a commit of the package is to write, where something is staged.
    fn commit_file(
        &self,
        alloc: Global,
        holder: u128,
        package: &[u8],
    ) -> Result<Option<NewFile>, StoreError>
        requires { IsStore self.now }
        ensures planned { IfOk result (PlansCommit self.now holder «package».now) }
        ensures refused { IfErr result (CommitStops self.now holder «package».now) }
    {
        self.refuse_failed()?;
        let Some(file) = self.file_of(package) else {
            return Err(StoreError::NoPackage);
        };
        self.refuse_waiting()?;
        if !self.staged.has(holder, file) {
            return Ok(None);
        }
        Ok(Some(self.new_file(alloc, holder, package, file)?))
    }

    /// What a replacement by the package is to write.
    fn replace_file(&self, alloc: Global, package: &Package) -> Result<NewFile, StoreError>
        requires { IsStore self.now }
        ensures planned { IfOk result (IsReplaceFile self.now «package».now) }
        ensures low { IfOk result (λ new. 2 ≤ new.file) }
        ensures number { IfOk result (λ new. new.file < length (names_of self.now) + 2) }
        ensures refused { IfErr result (ReplaceStops self.now «package».now) }
    {
        self.refuse_failed()?;
        let Some(file) = self.file_of(package.name.as_bytes()) else {
            return Err(StoreError::NoPackage);
        };
        self.refuse_waiting()?;
        let bytes = print(alloc, package)?;
        Ok(NewFile { file, bytes })
    }

    /// The file of a package of which the holder has staged something, as the holder sees it.
    pub(crate) fn new_file(
        &self,
        alloc: Global,
        holder: u128,
        package: &[u8],
        file: u32,
    ) -> Result<NewFile, StoreError>
        requires store { IsStore self.now }
        requires low { 2 ≤ file }
        requires number { file < length (names_of self.now) + 2 }
        requires name { name_of (names_of self.now) file ≡ «package».now }
        requires some { has_deltas holder file (staged_in self.now) ≡ true }
        ensures number { IfOk result (λ new. new.file ≡ file) }
        ensures is { IfOk result (IsNewFile self.now holder) }
        ensures refused { IfErr result (NewFileRefuses self.now holder file) }
    {
        let view = self.view_of(alloc, holder, package, file)?;
        let bytes = print(alloc, &view)?;
        Ok(NewFile { file, bytes })
    }
}

/// The package as its file is written.
fn print(alloc: Global, package: &Package) -> Result<Text, StoreError>
    ensures text { IfOk result (λ text. text ≡ file_text «package».now) }
    ensures fits { IfOk result (λ text. length text ≤ most_bytes) }
    ensures refused { IfErr result (PrintRefuses «package».now) }
{
    let text = print_package(alloc, package, false, false)?;
    let bytes = text.len();
    if bytes > MOST_BYTES {
        return Err(StoreError::TooLarge {
            bytes: bytes as u64,
        });
    }
    Ok(Text::from_vec(text))
}
