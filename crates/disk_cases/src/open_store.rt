use plane_disk::MemDisk;
use plane_io::{Items, Text};
use snap_disk::Pending;
use std::alloc::Global;
use std::marker::Model;
use uci_delta::Delta;
use uci_store::{Store, StoreError, have_same_packages};
use uci_tree::{Package, Path};

/// A store on its two disks.
#[derive(Drop)]
pub(crate) struct OpenStore {
    store: Store,
    files: MemDisk,
    staged: MemDisk,
}

impl Model for OpenStore {
    ghost use Rattle.std.specs.Prelude.{ℕ};
    ghost use Rattle.plane_disk.specs.MemDisk.{view_of};
    ghost use Rattle.uci_store.specs.Store.{IsOnFiles, IsOnStaged};

    ghost Value = { ℕ };

    ghost view = { λ opened. 0 };

    ghost invariant = { λ opened. IsOnFiles opened.store (view_of opened.files)
        × IsOnStaged opened.store (view_of opened.staged) };
}

impl OpenStore {
    /// Opens two disks of the same packages at a moment.
    pub(crate) fn open(
        alloc: Global,
        files: MemDisk,
        staged: MemDisk,
        now: u64,
    ) -> Option<Result<OpenStore, StoreError>> {
        let mut files = files;
        let mut staged = staged;
        if !have_same_packages(&files, &staged) {
            return None;
        }
        match Store::open(alloc, &mut files, &mut staged, now) {
            Ok(store) => Some(Ok(OpenStore {
                store,
                files,
                staged,
            })),
            Err(error) => Some(Err(error)),
        }
    }

    /// Gives the disks back: that of files, and that of staged changes.
    pub(crate) fn close(self) -> (MemDisk, MemDisk) {
        let OpenStore { files, staged, .. } = self;
        (files, staged)
    }

    #[tactic(auto, using(uci_store::proofs::DiskLemmas::files_goodness))]
    pub(crate) fn stage(
        &mut self,
        alloc: Global,
        holder: u128,
        delta: Delta,
    ) -> Result<(), StoreError> {
        self.store.stage(alloc, &mut self.staged, holder, delta)
    }

    #[tactic(auto, using(uci_store::proofs::DiskLemmas::files_goodness))]
    pub(crate) fn revert(
        &mut self,
        alloc: Global,
        holder: u128,
        path: &Path,
    ) -> Result<(), StoreError> {
        self.store.revert(alloc, &mut self.staged, holder, path)
    }

    pub(crate) fn commit(
        &mut self,
        alloc: Global,
        holder: u128,
        package: &[u8],
    ) -> Result<(), StoreError> {
        self.store
            .commit(alloc, &mut self.files, &mut self.staged, holder, package)
    }

    /// Puts what is committed in its own place.
    pub(crate) fn replace(
        &mut self,
        alloc: Global,
        holder: u128,
        package: &Package,
    ) -> Result<(), StoreError> {
        self.store
            .replace(alloc, &mut self.files, &mut self.staged, holder, package)
    }

    pub(crate) fn apply(
        &mut self,
        alloc: Global,
        holder: u128,
        deadline: Option<u64>,
    ) -> Result<(), StoreError> {
        self.store
            .apply(alloc, &mut self.files, &mut self.staged, holder, deadline)
    }

    #[tactic(auto, using(uci_store::proofs::DiskLemmas::staged_goodness))]
    pub(crate) fn confirm(&mut self, holder: u128) -> Result<(), StoreError> {
        self.store.confirm(&mut self.files, holder)
    }

    #[tactic(auto, using(uci_store::proofs::DiskLemmas::staged_goodness))]
    pub(crate) fn rollback(&mut self, holder: u128) -> Result<(), StoreError> {
        self.store.rollback(&mut self.files, holder)
    }

    #[tactic(auto, using(uci_store::proofs::DiskLemmas::staged_goodness))]
    pub(crate) fn tick(&mut self, now: u64) -> Result<bool, StoreError> {
        self.store.tick(&mut self.files, now)
    }

    pub(crate) fn changes(
        &self,
        alloc: Global,
        holder: u128,
        package: &[u8],
    ) -> Result<Items<Delta>, StoreError> {
        self.store.changes(alloc, holder, package)
    }

    pub(crate) fn view(
        &self,
        alloc: Global,
        holder: u128,
        package: &[u8],
    ) -> Result<Package, StoreError> {
        self.store.view(alloc, holder, package)
    }

    pub(crate) fn committed(&self, alloc: Global, package: &[u8]) -> Result<Package, StoreError> {
        self.store.committed(alloc, package)
    }

    pub(crate) fn pending(&self) -> Option<Pending> {
        self.store.pending()
    }

    pub(crate) fn packages(&self) -> &[Text] {
        self.store.packages()
    }
}
