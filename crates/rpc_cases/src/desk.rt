use blob_codec::Attr;
use plane_disk::MemDisk;
use rpc_rules::RpcError;
use rpc_session::Sessions;
use rpc_uci::{Reply, serve};
use std::alloc::Global;
use std::marker::Model;
use uci_store::{Store, StoreError, have_same_packages};

/// The disk of the packages, and that of the command line's own changes.
#[derive(Drop)]
pub(crate) struct Disks {
    pub(crate) files: MemDisk,
    pub(crate) staged: MemDisk,
}

/// A store that is open on two disks, of which none has failed.
#[derive(Drop)]
pub(crate) struct Desk {
    store: Store,
    files: MemDisk,
    staged: MemDisk,
}

impl Model for Desk {
    ghost use Rattle.std.specs.Prelude.{ℕ, ◌≡◌, false, List};
    ghost use Rattle.plane_disk.specs.MemDisk.{view_of};
    ghost use Rattle.uci_store.specs.Store.{names_of, has_failed, IsOnFiles, IsOnStaged};

    ghost Value = { List (List ℕ) };

    ghost view = { λ desk. names_of desk.store };

    ghost invariant = { λ desk. IsOnFiles desk.store (view_of desk.files)
        × IsOnStaged desk.store (view_of desk.staged)
        × (has_failed desk.store ≡ false) };
}

/// What a call of the object `uci` leaves: the store with what it answers, or the disks, of which
/// one failed.
pub(crate) enum Left {
    Open(Desk, Result<Reply, RpcError>),
    Failed(Disks),
}

/// Opens the disks at a moment. Gives them back where they do not open.
pub(crate) fn open(alloc: Global, disks: Disks, now: u64) -> anyhow::Result<Result<Desk, Disks>> {
    let Disks {
        mut files,
        mut staged,
    } = disks;
    if !have_same_packages(&files, &staged) {
        return Err(anyhow::anyhow!("the disks have other packages"));
    }
    match Store::open(alloc, &mut files, &mut staged, now) {
        Ok(store) => Ok(Ok(Desk {
            store,
            files,
            staged,
        })),
        Err(StoreError::Memory) => Err(StoreError::Memory.into()),
        Err(_) => Ok(Err(Disks { files, staged })),
    }
}

impl Desk {
    /// Makes a call of the object `uci`.
    pub(crate) fn call(
        self,
        alloc: Global,
        sessions: &mut Sessions,
        now: u64,
        method: &[u8],
        args: &[Attr],
    ) -> anyhow::Result<Left> {
        let Desk {
            mut store,
            mut files,
            mut staged,
        } = self;
        match serve(
            alloc,
            sessions,
            &mut store,
            &mut files,
            &mut staged,
            method,
            args,
            now,
        ) {
            Err(RpcError::Memory) => Err(RpcError::Memory.into()),
            Err(RpcError::DiskFailed) => Ok(Left::Failed(Disks { files, staged })),
            answer => Ok(Left::Open(
                Desk {
                    store,
                    files,
                    staged,
                },
                answer,
            )),
        }
    }

    /// Gives the store up, and the disks back.
    pub(crate) fn close(self) -> Disks {
        let Desk { files, staged, .. } = self;
        Disks { files, staged }
    }
}
