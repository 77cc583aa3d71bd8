//! How holders stage changes and take them back.
ghost use Rattle.std.specs.Prelude.{◌≡◌, ◌≢◌, IfErr, OnOk, OnErr};
ghost use Rattle.uci_staged.specs.Kept.{Follows};
ghost use Rattle.uci_store.specs.Store.{names_of, snap_of, staged_in, has_failed, IsOnStaged};
ghost use Rattle.uci_store.specs.Staging.{HasStaged, HasReverted, ChangesPackage, IsKeptOf};
ghost use Rattle.uci_store.specs.Staging.{IsWhole};
ghost use Rattle.uci_store.specs.Refusals.{StageRefuses, RevertRefuses};
ghost use Rattle.uci_store.specs.Stops.{UnlessFailed};
ghost use Rattle.uci_store.specs.StoreError.{IsDiskAnswer};

use crate::{Store, StoreError};
use plane_disk::Disk;
use snap_disk::SnapError;
use std::alloc::Global;
use uci_delta::{Delta, apply};
use uci_staged::{StagedChange, StagedError};
use uci_tree::Path;

impl Store {
    /// Stages a change of the package that it names, where the holder's view takes it.
    ///
    /// # Errors
    ///
    /// The store stays as it was, and but for `DiskFailed` the disk is untouched. `Reopen` exactly
    /// after a disk failed; `NoPackage` exactly where no file has the package's name; `Parse`
    /// exactly where the file does not read; those of [`uci_delta::apply`] exactly where the view
    /// does not take the change; `DiskFailed` only where it does and the disk failed; and `Memory`,
    /// of a package that has a file.
    #[tactic(auto, using(crate::proofs::StageLemmas::not_taken))]
    pub fn stage<T: Disk>(
        &mut self,
        alloc: Global,
        staged: &mut T,
        holder: u128,
        delta: Delta,
    ) -> Result<(), StoreError>
        requires { IsOnStaged self.old (T.view staged.old) }
        ensures follows { Follows (T.view staged.old) (T.view staged.new) }
        ensures on { IsOnStaged self.new (T.view staged.new) }
        ensures names { names_of self.new ≡ names_of self.old }
        ensures snap { snap_of self.new ≡ snap_of self.old }
        ensures done { OnOk result (HasStaged self.old self.new holder delta) }
        ensures changes { ChangesPackage self.old delta.«package»
            (T.view staged.old) (T.view staged.new) }
        ensures text { OnOk result
            (IsKeptOf self.new holder delta.«package» (T.view staged.old) (T.view staged.new)) }
        ensures aside { holder ≢ 0 → staged.new ≡ staged.old }
        ensures kept { OnErr result (staged_in self.new ≡ staged_in self.old) }
        ensures refused { IfErr result
            (StageRefuses self.old holder delta (T.view staged.old) (T.view staged.new)) }
        ensures untouched { IfErr result (UnlessFailed (staged.new ≡ staged.old)) }
        ensures closes { IsWhole result (has_failed self.old) (has_failed self.new) }
    {
        self.refuse_failed()?;
        let Some(file) = self.file_of(delta.package.as_bytes()) else {
            return Err(StoreError::NoPackage);
        };
        let mut view = self.view_of(alloc, holder, delta.package.as_bytes(), file)?;
        match apply(alloc, &mut view, &delta) {
            Ok(()) => {}
            Err(error) => return Err(StoreError::from(error)),
        }
        let change = StagedChange {
            holder,
            file,
            delta,
        };
        match self.staged.stage(alloc, staged, change) {
            Ok(()) => Ok(()),
            Err(error) => Err(self.failed_by(error)),
        }
    }

    /// Drops those changes of the holder that lie under the path: of its package, of a section
    /// where it names one, of an option where it names one. What a section was renamed to is not
    /// followed.
    ///
    /// # Errors
    ///
    /// The store stays as it was, and but for `DiskFailed` the disk is untouched. `Reopen` exactly
    /// after a disk failed; `NoPackage` exactly where no file has the package's name; of a package
    /// that has one, `DiskFailed` only where the disk failed, and `Memory`.
    pub fn revert<T: Disk>(
        &mut self,
        alloc: Global,
        staged: &mut T,
        holder: u128,
        path: &Path,
    ) -> Result<(), StoreError>
        requires { IsOnStaged self.old (T.view staged.old) }
        ensures follows { Follows (T.view staged.old) (T.view staged.new) }
        ensures on { IsOnStaged self.new (T.view staged.new) }
        ensures names { names_of self.new ≡ names_of self.old }
        ensures snap { snap_of self.new ≡ snap_of self.old }
        ensures done { OnOk result (HasReverted self.old self.new holder path.now) }
        ensures changes { ChangesPackage self.old path.now.«package»
            (T.view staged.old) (T.view staged.new) }
        ensures text { OnOk result (IsKeptOf self.new holder path.now.«package»
            (T.view staged.old) (T.view staged.new)) }
        ensures aside { holder ≢ 0 → staged.new ≡ staged.old }
        ensures kept { OnErr result (staged_in self.new ≡ staged_in self.old) }
        ensures refused { IfErr result (RevertRefuses self.old holder path.now.«package»
            (T.view staged.old) (T.view staged.new)) }
        ensures untouched { IfErr result (UnlessFailed (staged.new ≡ staged.old)) }
        ensures closes { IsWhole result (has_failed self.old) (has_failed self.new) }
    {
        self.refuse_failed()?;
        let Some(file) = self.file_of(path.package.as_bytes()) else {
            return Err(StoreError::NoPackage);
        };
        match self.staged.revert(alloc, staged, holder, file, path) {
            Ok(()) => Ok(()),
            Err(error) => Err(self.failed_by(error)),
        }
    }

    /// What a call answers that the disk of staged changes has refused.
    pub(crate) fn failed_by(&mut self, error: StagedError) -> StoreError
        ensures names { names_of self.new ≡ names_of self.old }
        ensures snap { snap_of self.new ≡ snap_of self.old }
        ensures staged { staged_in self.new ≡ staged_in self.old }
        ensures answer { IsDiskAnswer error result (has_failed self.old) (has_failed self.new) }
    {
        match error {
            StagedError::DiskFailed => {
                self.failed = true;
                StoreError::Snap(SnapError::DiskFailed)
            }
            StagedError::Memory => StoreError::Memory,
        }
    }
}
