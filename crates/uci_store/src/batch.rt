//! How holders stage several changes of one package at once.
ghost use Rattle.std.specs.Prelude.{◌≡◌, ◌≢◌, Ok, IfErr, OnOk, OnErr};
ghost use Rattle.std.specs.List.{AllByRecursion};
ghost use Rattle.uci_delta.specs.DeltaError.{IsRefusalOf};
ghost use Rattle.uci_staged.specs.Kept.{Follows};
ghost use Rattle.uci_store.specs.Store.{names_of, snap_of, staged_in, has_failed, IsOnStaged};
ghost use Rattle.uci_store.specs.Staging.{ChangesPackage, IsKeptOf, IsWhole};
ghost use Rattle.uci_store.specs.Stops.{UnlessFailed};
ghost use Rattle.uci_store.specs.Batch.{IsOf, all_taken, HasStagedBatch, BatchRefuses};

use crate::{Store, StoreError};
use plane_disk::Disk;
use std::alloc::Global;
use uci_delta::{Delta, DeltaError, apply};
use uci_tree::Package;

impl Store {
    /// Stages changes of one package, where the holder's view takes them one after another: all of
    /// them or none. The view is made once, and the staged disk of the command line is written
    /// once.
    ///
    /// # Errors
    ///
    /// The store stays as it was, and but for `DiskFailed` the disk is untouched. `Reopen` exactly
    /// after a disk failed; `NoPackage` exactly where no file has the package's name; `Parse`
    /// exactly where the file does not read; those of [`uci_delta::apply`] exactly where the view
    /// does not take one of the changes behind those before it, with the cause of the first;
    /// `DiskFailed` only where it takes them all and the disk failed; and `Memory`, of a package
    /// that has a file.
    #[tactic(auto, using(crate::proofs::BatchLemmas::batch_not_taken))]
    pub fn stage_all<T: Disk>(
        &mut self,
        alloc: Global,
        staged: &mut T,
        holder: u128,
        package: &[u8],
        deltas: Vec<Delta>,
    ) -> Result<(), StoreError>
        requires on { IsOnStaged self.old (T.view staged.old) }
        requires one { AllByRecursion (IsOf «package».now) deltas.items }
        ensures follows { Follows (T.view staged.old) (T.view staged.new) }
        ensures on { IsOnStaged self.new (T.view staged.new) }
        ensures names { names_of self.new ≡ names_of self.old }
        ensures snap { snap_of self.new ≡ snap_of self.old }
        ensures done { OnOk result
            (HasStagedBatch self.old self.new holder «package».now deltas.items) }
        ensures changes { ChangesPackage self.old «package».now
            (T.view staged.old) (T.view staged.new) }
        ensures text { OnOk result
            (IsKeptOf self.new holder «package».now (T.view staged.old) (T.view staged.new)) }
        ensures aside { holder ≢ 0 → staged.new ≡ staged.old }
        ensures kept { OnErr result (staged_in self.new ≡ staged_in self.old) }
        ensures refused { IfErr result (BatchRefuses self.old holder «package».now deltas.items
            (T.view staged.old) (T.view staged.new)) }
        ensures untouched { IfErr result (UnlessFailed (staged.new ≡ staged.old)) }
        ensures closes { IsWhole result (has_failed self.old) (has_failed self.new) }
    {
        self.refuse_failed()?;
        let Some(file) = self.file_of(package) else {
            return Err(StoreError::NoPackage);
        };
        let mut view = self.view_of(alloc, holder, package, file)?;
        match take_all(alloc, &mut view, deltas.as_slice()) {
            Ok(()) => {}
            Err(error) => return Err(StoreError::from(error)),
        }
        match self.staged.stage_all(alloc, staged, holder, file, deltas) {
            Ok(()) => Ok(()),
            Err(error) => Err(self.failed_by(error)),
        }
    }
}

/// Applies changes one after another, until one is refused.
fn take_all(alloc: Global, tree: &mut Package, deltas: &[Delta]) -> Result<(), DeltaError>
    ensures done { OnOk result (all_taken tree.old deltas.now ≡ Ok tree.new) }
    ensures refused { IfErr result (IsRefusalOf (all_taken tree.old deltas.now)) }
{
    for delta in deltas {
        match apply(alloc, tree, delta) {
            Ok(()) => {}
            Err(error) => return Err(error),
        }
    }
    Ok(())
}
