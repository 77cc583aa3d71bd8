use plane_disk::{Disk, MemDisk};
use snap_disk::{NewFile, Pending, Snap, SnapError, are_package_files};
use std::alloc::Global;
use std::marker::Model;

/// A snapshot on its disk.
#[derive(Drop)]
pub(crate) struct OpenSnap {
    snap: Snap,
    disk: MemDisk,
}

impl Model for OpenSnap {
    ghost use Rattle.std.specs.Prelude.{ℕ};
    ghost use Rattle.plane_disk.specs.MemDisk.{view_of};
    ghost use Rattle.snap_disk.specs.Open.{IsOpenOn};

    ghost Value = { ℕ };

    ghost view = { λ opened. 0 };

    ghost invariant = { λ opened. IsOpenOn opened.snap (view_of opened.disk) };
}

/// A disk that does not open, and why.
#[derive(Drop)]
pub(crate) struct Shut {
    pub(crate) disk: MemDisk,
    pub(crate) error: SnapError,
}

impl OpenSnap {
    /// Opens a disk at a moment.
    pub(crate) fn open(alloc: Global, disk: MemDisk, now: u64) -> Result<OpenSnap, Shut> {
        let mut disk = disk;
        match Snap::open(alloc, &mut disk, now) {
            Ok(snap) => Ok(OpenSnap { snap, disk }),
            Err(error) => Err(Shut { disk, error }),
        }
    }

    /// Its disk.
    pub(crate) fn disk(&self) -> &MemDisk {
        &self.disk
    }

    /// Gives the disk back.
    pub(crate) fn close(self) -> MemDisk {
        let OpenSnap { disk, .. } = self;
        disk
    }

    /// Writes new files, where they are files of packages.
    pub(crate) fn begin(
        &mut self,
        alloc: Global,
        new: Vec<NewFile>,
        wait: Option<Pending>,
    ) -> Option<Result<(), SnapError>> {
        if !are_package_files(self.disk.count(), &new) {
            return None;
        }
        Some(self.snap.begin(alloc, &mut self.disk, new, wait))
    }

    pub(crate) fn confirm(&mut self) -> Result<(), SnapError> {
        self.snap.confirm(&mut self.disk)
    }

    pub(crate) fn rollback(&mut self) -> Result<(), SnapError> {
        self.snap.rollback(&mut self.disk)
    }

    pub(crate) fn tick(&mut self, now: u64) -> Result<bool, SnapError> {
        self.snap.tick(&mut self.disk, now)
    }

    /// The bytes of the file of a package.
    pub(crate) fn file(&self, file: u32) -> Option<&[u8]> {
        if file < 2 || file >= self.disk.count() {
            return None;
        }
        Some(self.snap.file(file))
    }

    /// What waits.
    pub(crate) fn pending(&self) -> Option<Pending> {
        self.snap.pending()
    }
}
