ghost use Rattle.std.specs.Prelude.{◌≡◌, ◌≢◌, ℕ, List, IfOk, OnOk, OnErr};
ghost use Rattle.uci_tree.specs.Valid.{IsValid};
ghost use Rattle.uci_delta.specs.Batch.{all_applied, HasFrontApplied};
ghost use Rattle.uci_staged.specs.Change.{forgotten, has_deltas, has_staged};
ghost use Rattle.uci_staged.specs.Kept.{changes_of, deltas_of, AreStagedIn};

use crate::{StagedChange, copy_delta};
use plane_io::{Items, Memory};
use std::alloc::Global;
use uci_delta::{Delta, apply_all};
use uci_tree::Package;

/// The changes that holders have staged. Those of holder 0, the command line, are kept on a disk as
/// well, which is the one on which they were opened.
#[derive(Drop)]
pub struct Staged {
    pub(crate) changes: Vec<StagedChange>,
}

impl Staged {
    /// What the holder has staged of the package of that file, in its order.
    ///
    /// # Errors
    ///
    /// `Memory` where there was not enough memory.
    pub fn deltas(&self, alloc: Global, holder: u128, file: u32) -> Result<Items<Delta>, Memory>
        ensures { IfOk result (λ deltas. deltas ≡ deltas_of holder file self.now) }
    {
        let mut deltas = Items::new(alloc);
        for change in self.changes.as_slice() {
            if change.is_of(holder, file) {
                deltas.push(copy_delta(&change.delta)?)?;
            }
        }
        Ok(deltas)
    }

    /// Whether the holder has staged a change of the package of that file.
    pub fn has(&self, holder: u128, file: u32) -> bool
        ensures { result ≡ has_deltas holder file (changes_of self.now) }
    {
        self.changes.iter().any(|change| change.is_of(holder, file))
    }

    /// Whether the holder has staged a change of any package.
    pub fn has_any(&self, holder: u128) -> bool
        ensures { result ≡ has_staged holder (changes_of self.now) }
    {
        self.changes.iter().any(|change| change.holder == holder)
    }

    /// Applies what the holder has staged of the package to it, and passes over each change that is
    /// refused.
    ///
    /// # Errors
    ///
    /// `Memory` where there was not enough memory; a front of the changes is applied then.
    pub fn apply_to(
        &self,
        alloc: Global,
        holder: u128,
        file: u32,
        package: &mut Package,
    ) -> Result<(), Memory>
        ensures done { OnOk result («package».new
            ≡ all_applied «package».old (deltas_of holder file self.now)) }
        ensures front { OnErr result (HasFrontApplied «package».old
            (deltas_of holder file self.now) «package».new) }
        ensures valid { IsValid «package».old → IsValid «package».new }
    {
        let deltas = self.deltas(alloc, holder, file)?;
        apply_all(alloc, package, deltas.as_slice())
    }

    /// Drops all changes of the holder, which is not 0. It takes no memory.
    pub fn forget(&mut self, holder: u128)
        requires { holder ≢ 0 }
        ensures done { changes_of self.new ≡ forgotten holder (changes_of self.old) }
        ensures own { (file : ℕ) → deltas_of 0 file self.new ≡ deltas_of 0 file self.old }
        ensures lines { (names : List (List ℕ)) → AreStagedIn names (changes_of self.old) →
            AreStagedIn names (changes_of self.new) }
    {
        forget(&mut self.changes, holder);
    }
}

/// Drops all changes of the holder.
pub(crate) fn forget(changes: &mut Vec<StagedChange>, holder: u128)
    ensures { changes.new.items ≡ forgotten holder changes.old.items }
{
    changes.retain(|change| change.holder != holder);
}
