ghost use Rattle.std.specs.Prelude.{ℕ, List, ◌≡◌, ◌≢◌, ◌≤◌, ◌<◌, ◌+◌, [], length, false, IfErr};
ghost use Rattle.std.specs.Prelude.{IfSome, OnOk, bytes_eq, position, slice_index_or};
ghost use Rattle.snap_disk.specs.Open.{pending_of};
ghost use Rattle.uci_staged.specs.Change.{deltas_in, forgotten};
ghost use Rattle.uci_staged.specs.Kept.{AreStagedIn};
ghost use Rattle.uci_store.specs.Store.{names_of, snap_of, files_of, staged_in, has_failed};
ghost use Rattle.uci_store.specs.Store.{file_of, name_of, IsStore};
ghost use Rattle.uci_store.specs.Refusals.{IsReopen};
ghost use Rattle.uci_store.specs.Committing.{IsFree, FreeRefuses};

use crate::StoreError;
use plane_io::Text;
use snap_disk::{Pending, Snap, SnapError};
use uci_staged::Staged;

/// The packages of a folder, what holders have staged over them, and an apply that waits. Holder 0
/// is the command line, whose changes are kept on a disk of their own; the other holders are
/// sessions. It belongs to the disks on which it was opened.
#[derive(Drop)]
pub struct Store {
    pub(crate) packages: Vec<Text>,
    pub(crate) snap: Snap,
    pub(crate) staged: Staged,
    pub(crate) failed: bool,
}

impl Store {
    /// The names of the packages, in byte order.
    pub fn packages(&self) -> &[Text]
        ensures { result.now ≡ names_of self.now }
    {
        self.packages.as_slice()
    }

    /// The apply that waits: until when, and for whom.
    pub fn pending(&self) -> Option<Pending>
        ensures { result ≡ pending_of (files_of self.now).waits }
    {
        self.snap.pending()
    }

    /// Drops what the holder has staged, which is not the command line. It takes no memory.
    pub fn forget(&mut self, holder: u128)
        requires { holder ≢ 0 }
        ensures staged { staged_in self.new ≡ forgotten holder (staged_in self.old) }
        ensures names { names_of self.new ≡ names_of self.old }
        ensures snap { snap_of self.new ≡ snap_of self.old }
        ensures failed { has_failed self.new ≡ has_failed self.old }
        ensures store { IsStore self.old → IsStore self.new }
        ensures own { (file : ℕ) → deltas_in 0 file (staged_in self.new)
            ≡ deltas_in 0 file (staged_in self.old) }
        ensures lines { (names : List (List ℕ)) → AreStagedIn names (staged_in self.old) →
            AreStagedIn names (staged_in self.new) }
    {
        self.staged.forget(holder);
    }

    /// The number of the package's file.
    pub(crate) fn file_of(&self, package: &[u8]) -> Option<u32>
        requires { IsStore self.now }
        ensures is { result ≡ file_of (names_of self.now) «package».now }
        ensures low { IfSome result (λ file. 2 ≤ file) }
        ensures number { IfSome result (λ file. file < length (names_of self.now) + 2) }
        ensures name { IfSome result (λ file. name_of (names_of self.now) file ≡ «package».now) }
    {
        match self.place_of(package) {
            Some(place) => Some(place as u32 + 2),
            None => None,
        }
    }

    /// The place of the package among the packages.
    fn place_of(&self, package: &[u8]) -> Option<usize>
        ensures is { result ≡ position (λ name. bytes_eq name «package».now) (names_of self.now) }
        ensures within { IfSome result (λ place. place < length (names_of self.now)) }
        ensures name { IfSome result (λ place.
            slice_index_or (names_of self.now) place [] ≡ «package».now) }
    {
        self.packages
            .iter()
            .position(|name| name.as_bytes() == package)
    }

    /// Refuses a call on a disk once one has failed.
    pub(crate) fn refuse_failed(&self) -> Result<(), StoreError>
        ensures ready { OnOk result (has_failed self.now ≡ false) }
        ensures refused { IfErr result (IsReopen self.now) }
    {
        if self.failed {
            return Err(StoreError::Snap(SnapError::Reopen));
        }
        Ok(())
    }

    /// Refuses where an apply waits.
    pub(crate) fn refuse_waiting(&self) -> Result<(), StoreError>
        requires { has_failed self.now ≡ false }
        ensures free { OnOk result (IsFree self.now) }
        ensures refused { IfErr result (FreeRefuses self.now) }
    {
        match self.snap.pending() {
            None => Ok(()),
            Some(pending) => Err(StoreError::Snap(SnapError::Waiting {
                deadline: pending.deadline,
            })),
        }
    }
}
