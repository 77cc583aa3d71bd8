//! How changes are staged and dropped.
ghost use Rattle.std.specs.Prelude.{◌≡◌, ◌≢◌, ◌≤◌, ◌++◌, ◌∷◌, [], ℕ, List, Err, IfOk, IfErr, OnOk};
ghost use Rattle.std.specs.Prelude.{OnErr};
ghost use Rattle.std.specs.List.{AllByRecursion};
ghost use Rattle.std.specs.Option.{option_copied};
ghost use Rattle.plane_words.specs.Causes.{HasCause};
ghost use Rattle.plane_disk.specs.View.{IsFile};
ghost use Rattle.uci_delta.specs.Shape.{HasShape};
ghost use Rattle.uci_staged.specs.Change.{changes_at as changes_of_deltas, reverted, without};
ghost use Rattle.uci_staged.specs.Change.{forgotten, kept_text};
ghost use Rattle.uci_staged.specs.Kept.{changes_of, IsStagedIn, AreStagedIn, IsStagedOn, Follows};
ghost use Rattle.uci_staged.specs.Kept.{ChangesFile, ChangesPackages, HasFilled, HasEmptied};
ghost use Rattle.uci_staged.specs.Kept.{IsKeptAt};
ghost use Rattle.uci_staged.specs.StagedError.{KeepRefuses};

use crate::file::{empty, fill};
use crate::staged::forget;
use crate::under::{is_dropped, lies_under};
use crate::{Staged, StagedChange, StagedError};
use plane_disk::Disk;
use plane_io::{Failed, Memory};
use std::alloc::Global;
use uci_delta::{Delta, print_delta};
use uci_tree::Path;

impl Staged {
    /// Stages a change. Where it is one of holder 0, the file of its package is written anew and
    /// whole.
    ///
    /// # Errors
    ///
    /// The changes stay as they were. `DiskFailed` only where the disk failed, and `Memory`.
    pub fn stage<T: Disk>(
        &mut self,
        alloc: Global,
        disk: &mut T,
        change: StagedChange,
    ) -> Result<(), StagedError>
        requires on { IsStagedOn self.old (T.view disk.old) }
        requires change { IsStagedIn (T.view disk.old).names change }
        ensures follows { Follows (T.view disk.old) (T.view disk.new) }
        ensures changes { ChangesFile change.file (T.view disk.old) (T.view disk.new) }
        ensures text { OnOk result (IsKeptAt change.holder change.file
            (T.view disk.old) (T.view disk.new) (changes_of self.new)) }
        ensures on { OnOk result (IsStagedOn self.new (T.view disk.new)) }
        ensures done { OnOk result (changes_of self.new ≡ changes_of self.old ++ change ∷ []) }
        ensures kept { OnErr result (changes_of self.new ≡ changes_of self.old) }
        ensures refused { IfErr result
            (KeepRefuses change.holder (T.view disk.old) (T.view disk.new)) }
        ensures rests { result ≡ Err StagedError.Memory → disk.new ≡ disk.old }
        ensures aside { change.holder ≢ 0 → disk.new ≡ disk.old }
    {
        let before = self.changes.len();
        let holder = change.holder;
        let file = change.file;
        let Ok(()) = self.changes.push(change) else {
            return Err(StagedError::Memory);
        };
        match keep(alloc, disk, self.changes.as_slice(), holder, file, None) {
            Ok(()) => Ok(()),
            Err(error) => {
                self.changes.truncate(before);
                Err(error)
            }
        }
    }

    /// Stages changes of the holder, of the package of that file, all of them or none. Where the
    /// holder is 0, the file is written anew and whole, once.
    ///
    /// # Errors
    ///
    /// The changes stay as they were. `DiskFailed` only where the disk failed, and `Memory`.
    pub fn stage_all<T: Disk>(
        &mut self,
        alloc: Global,
        disk: &mut T,
        holder: u128,
        file: u32,
        deltas: Vec<Delta>,
    ) -> Result<(), StagedError>
        requires on { IsStagedOn self.old (T.view disk.old) }
        requires number { IsFile (T.view disk.old) file }
        requires changes { AreStagedIn (T.view disk.old).names
            (changes_of_deltas holder file deltas.items) }
        ensures follows { Follows (T.view disk.old) (T.view disk.new) }
        ensures changes { ChangesFile file (T.view disk.old) (T.view disk.new) }
        ensures text { OnOk result (IsKeptAt holder file
            (T.view disk.old) (T.view disk.new) (changes_of self.new)) }
        ensures on { OnOk result (IsStagedOn self.new (T.view disk.new)) }
        ensures done { OnOk result (changes_of self.new
            ≡ changes_of self.old ++ changes_of_deltas holder file deltas.items) }
        ensures kept { OnErr result (changes_of self.new ≡ changes_of self.old) }
        ensures refused { IfErr result (KeepRefuses holder (T.view disk.old) (T.view disk.new)) }
        ensures rests { result ≡ Err StagedError.Memory → disk.new ≡ disk.old }
        ensures aside { holder ≢ 0 → disk.new ≡ disk.old }
    {
        let kept = self.changes.len();
        let Ok(mut changes) = changes_at(alloc, holder, file, deltas) else {
            return Err(StagedError::Memory);
        };
        let Ok(()) = self.changes.append(&mut changes) else {
            return Err(StagedError::Memory);
        };
        match keep(alloc, disk, self.changes.as_slice(), holder, file, None) {
            Ok(()) => Ok(()),
            Err(error) => {
                self.changes.truncate(kept);
                Err(error)
            }
        }
    }

    /// Drops those changes of the holder, of the package of that file, that lie under the path.
    ///
    /// # Errors
    ///
    /// The changes stay as they were. `DiskFailed` only where the disk failed, and `Memory`.
    pub fn revert<T: Disk>(
        &mut self,
        alloc: Global,
        disk: &mut T,
        holder: u128,
        file: u32,
        path: &Path,
    ) -> Result<(), StagedError>
        requires on { IsStagedOn self.old (T.view disk.old) }
        requires low { 2 ≤ file }
        requires number { IsFile (T.view disk.old) file }
        ensures follows { Follows (T.view disk.old) (T.view disk.new) }
        ensures changes { ChangesFile file (T.view disk.old) (T.view disk.new) }
        ensures text { OnOk result (IsKeptAt holder file
            (T.view disk.old) (T.view disk.new) (changes_of self.new)) }
        ensures on { OnOk result (IsStagedOn self.new (T.view disk.new)) }
        ensures done { OnOk result
            (changes_of self.new ≡ reverted holder file path.now (changes_of self.old)) }
        ensures kept { OnErr result (changes_of self.new ≡ changes_of self.old) }
        ensures refused { IfErr result (KeepRefuses holder (T.view disk.old) (T.view disk.new)) }
        ensures rests { result ≡ Err StagedError.Memory → disk.new ≡ disk.old }
        ensures aside { holder ≢ 0 → disk.new ≡ disk.old }
    {
        match keep(
            alloc,
            disk,
            self.changes.as_slice(),
            holder,
            file,
            Some(path),
        ) {
            Ok(()) => {
                revert(&mut self.changes, holder, file, path);
                Ok(())
            }
            Err(error) => Err(error),
        }
    }

    /// Drops all changes of the holder, of the package of that file. It takes no memory.
    ///
    /// # Errors
    ///
    /// The changes stay as they were; `Failed` only where the disk failed.
    pub fn drop_package<T: Disk>(
        &mut self,
        disk: &mut T,
        holder: u128,
        file: u32,
    ) -> Result<(), Failed>
        requires on { IsStagedOn self.old (T.view disk.old) }
        requires low { 2 ≤ file }
        requires number { IsFile (T.view disk.old) file }
        ensures follows { Follows (T.view disk.old) (T.view disk.new) }
        ensures changes { ChangesFile file (T.view disk.old) (T.view disk.new) }
        ensures text { OnOk result (IsKeptAt holder file
            (T.view disk.old) (T.view disk.new) (changes_of self.new)) }
        ensures on { OnOk result (IsStagedOn self.new (T.view disk.new)) }
        ensures done { OnOk result
            (changes_of self.new ≡ without holder file (changes_of self.old)) }
        ensures kept { OnErr result (changes_of self.new ≡ changes_of self.old) }
        ensures cause { HasCause (T.view disk.old).faults (T.view disk.new).faults result }
        ensures own { OnErr result (holder ≡ 0) }
        ensures aside { holder ≢ 0 → disk.new ≡ disk.old }
    {
        match empty_own(disk, holder, file) {
            Ok(()) => {
                drop_all(&mut self.changes, holder, file);
                Ok(())
            }
            Err(error) => Err(error),
        }
    }

    /// Drops all changes of the holder. It takes no memory.
    ///
    /// # Errors
    ///
    /// The changes stay as they were; `Failed` only where the disk failed.
    pub fn drop_holder<T: Disk>(&mut self, disk: &mut T, holder: u128) -> Result<(), Failed>
        requires on { IsStagedOn self.old (T.view disk.old) }
        ensures follows { Follows (T.view disk.old) (T.view disk.new) }
        ensures changes { ChangesPackages (T.view disk.old) (T.view disk.new) }
        ensures emptied { OnOk result (holder ≡ 0 →
            HasEmptied (T.view disk.old) (T.view disk.new)) }
        ensures on { OnOk result (IsStagedOn self.new (T.view disk.new)) }
        ensures done { OnOk result (changes_of self.new ≡ forgotten holder (changes_of self.old)) }
        ensures kept { OnErr result (changes_of self.new ≡ changes_of self.old) }
        ensures cause { HasCause (T.view disk.old).faults (T.view disk.new).faults result }
        ensures own { OnErr result (holder ≡ 0) }
        ensures aside { holder ≢ 0 → disk.new ≡ disk.old }
    {
        match empty_all_own(disk, holder) {
            Ok(()) => {
                forget(&mut self.changes, holder);
                Ok(())
            }
            Err(error) => Err(error),
        }
    }
}

/// The deltas as changes of the holder, of the package of that file.
fn changes_at(
    alloc: Global,
    holder: u128,
    file: u32,
    deltas: Vec<Delta>,
) -> Result<Vec<StagedChange>, Memory>
    ensures { IfOk result (λ changes. changes.items ≡ changes_of_deltas holder file deltas.items) }
{
    let mut changes = Vec::new(alloc);
    for delta in deltas {
        changes.push(StagedChange {
            holder,
            file,
            delta,
        })?;
    }
    Ok(changes)
}

/// Keeps what the holder has staged of the package, but for what is dropped, where its changes are
/// kept.
fn keep<T: Disk>(
    alloc: Global,
    disk: &mut T,
    changes: &[StagedChange],
    holder: u128,
    file: u32,
    dropped: Option<&Path>,
) -> Result<(), StagedError>
    requires number { IsFile (T.view disk.old) file }
    requires shapes { AllByRecursion (λ change. HasShape change.delta) changes.now }
    ensures follows { Follows (T.view disk.old) (T.view disk.new) }
    ensures changes { ChangesFile file (T.view disk.old) (T.view disk.new) }
    ensures filled { OnOk result (holder ≡ 0 → HasFilled (T.view disk.old) (T.view disk.new) file
        (kept_text file (option_copied dropped.entry) changes.now)) }
    ensures refused { IfErr result (KeepRefuses holder (T.view disk.old) (T.view disk.new)) }
    ensures rests { result ≡ Err StagedError.Memory → disk.new ≡ disk.old }
    ensures aside { holder ≢ 0 → disk.new ≡ disk.old }
{
    if holder != 0 {
        return Ok(());
    }
    let Ok(text) = text_of(alloc, changes, file, dropped) else {
        return Err(StagedError::Memory);
    };
    match fill(disk, file, &text) {
        Ok(()) => Ok(()),
        Err(_) => Err(StagedError::DiskFailed),
    }
}

/// The text of what holder 0 has staged of the package, but for what is dropped.
fn text_of(
    alloc: Global,
    changes: &[StagedChange],
    file: u32,
    dropped: Option<&Path>,
) -> Result<Vec<u8>, Memory>
    requires { AllByRecursion (λ change. HasShape change.delta) changes.now }
    ensures { IfOk result (λ text. text.items
        ≡ kept_text file (option_copied dropped.entry) changes.now) }
{
    let mut text = Vec::new(alloc);
    for change in changes {
        if change.is_of(0, file) && !is_dropped(dropped, &change.delta) {
            print_delta(&mut text, &change.delta)?;
            text.push(b'\n')?;
        }
    }
    Ok(text)
}

/// Leaves the file of a package empty, where the holder's changes are kept.
fn empty_own<T: Disk>(disk: &mut T, holder: u128, file: u32) -> Result<(), Failed>
    requires { IsFile (T.view disk.old) file }
    ensures follows { Follows (T.view disk.old) (T.view disk.new) }
    ensures changes { ChangesFile file (T.view disk.old) (T.view disk.new) }
    ensures filled { OnOk result
        (holder ≡ 0 → HasFilled (T.view disk.old) (T.view disk.new) file []) }
    ensures cause { HasCause (T.view disk.old).faults (T.view disk.new).faults result }
    ensures own { OnErr result (holder ≡ 0) }
    ensures aside { holder ≢ 0 → disk.new ≡ disk.old }
{
    if holder != 0 {
        return Ok(());
    }
    empty(disk, file)
}

/// Leaves all packages empty, where the holder's changes are kept.
fn empty_all_own<T: Disk>(disk: &mut T, holder: u128) -> Result<(), Failed>
    ensures follows { Follows (T.view disk.old) (T.view disk.new) }
    ensures changes { ChangesPackages (T.view disk.old) (T.view disk.new) }
    ensures emptied { OnOk result (holder ≡ 0 → HasEmptied (T.view disk.old) (T.view disk.new)) }
    ensures cause { HasCause (T.view disk.old).faults (T.view disk.new).faults result }
    ensures own { OnErr result (holder ≡ 0) }
    ensures aside { holder ≢ 0 → disk.new ≡ disk.old }
{
    if holder != 0 {
        return Ok(());
    }
    empty_all(disk)
}

/// Leaves all packages empty.
fn empty_all<T: Disk>(disk: &mut T) -> Result<(), Failed>
    ensures follows { Follows (T.view disk.old) (T.view disk.new) }
    ensures changes { ChangesPackages (T.view disk.old) (T.view disk.new) }
    ensures emptied { OnOk result (HasEmptied (T.view disk.old) (T.view disk.new)) }
    ensures cause { HasCause (T.view disk.old).faults (T.view disk.new).faults result }
{
    let count = disk.count();
    for file in 2..count {
        match empty(disk, file) {
            Ok(()) => {}
            Err(error) => return Err(error),
        }
    }
    Ok(())
}

fn revert(changes: &mut Vec<StagedChange>, holder: u128, file: u32, path: &Path)
    ensures { changes.new.items ≡ reverted holder file path.now changes.old.items }
{
    changes.retain(|change| !(change.is_of(holder, file) && lies_under(path, &change.delta)));
}

fn drop_all(changes: &mut Vec<StagedChange>, holder: u128, file: u32)
    ensures { changes.new.items ≡ without holder file changes.old.items }
{
    changes.retain(|change| !change.is_of(holder, file));
}
