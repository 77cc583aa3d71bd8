ghost use Rattle.std.specs.Prelude.{◌≡◌, ◌≢◌};
ghost use Rattle.snap_disk.specs.declared.snap_error.SnapError.TheVariants as snap_error;
ghost use Rattle.uci_tree.specs.declared.tree_error.TreeError.TheVariants as tree_error;
ghost use Rattle.uci_delta.specs.declared.delta_error.DeltaError.TheVariants as delta_error;
ghost use Rattle.uci_store.specs.StoreError.{number_of};
ghost use Rattle.uci_store.specs.declared.store_error.StoreError.TheVariants.{Memory as NoMemory};
ghost use Rattle.uci_store.specs.declared.store_error.StoreError.TheVariants.{Snap as OfSnap};
ghost use Rattle.uci_store.specs.declared.store_error.StoreError.TheVariants.{Parse as OfText};
ghost use Rattle.uci_store.specs.declared.store_error.StoreError.TheVariants.{Delta as OfDelta};

use plane_io::Memory;
use snap_disk::SnapError;
use std::alloc::{AllocError, AllocFailed};
use thiserror::Error;
use uci_delta::DeltaError;
use uci_tree::TreeError;

/// Why a call of a store was refused.
#[derive(Clone, Copy, Debug, Error)]
pub enum StoreError {
    /// A disk failed, or has failed before; an apply waits, or none does; or the files passed a
    /// limit or have no reading.
    #[error("{0}")]
    Snap(SnapError),
    /// No file has the package's name.
    #[error("no such package")]
    NoPackage,
    /// A package's file does not read.
    #[error("{0}")]
    Parse(TreeError),
    /// The view does not take the delta.
    #[error("{0}")]
    Delta(DeltaError),
    /// A package that was to be written has this many bytes, which is more than a file may have.
    #[error("a package of {bytes} bytes")]
    TooLarge { bytes: u64 },
    /// The apply that waits is another holder's, which is this one.
    #[error("waiting for {holder}")]
    NotHolder { holder: u128 },
    /// The holder has staged nothing.
    #[error("nothing staged")]
    NothingStaged,
    /// There was not enough memory.
    #[error("out of memory")]
    Memory,
}

impl StoreError {
    /// The number of the kind of error: that of what the snapshot or the delta says, 35 for
    /// `NoPackage`, 36 for `Parse`, 37 for `TooLarge`, 38 for `NotHolder`, 39 for `NothingStaged`,
    /// 8 for `Memory`.
    pub fn number(&self) -> u8
        ensures { result ≡ number_of self.now }
    {
        match self {
            StoreError::Snap(error) => error.number(),
            StoreError::NoPackage => 35,
            StoreError::Parse(_) => 36,
            StoreError::Delta(error) => error.number(),
            StoreError::TooLarge { .. } => 37,
            StoreError::NotHolder { .. } => 38,
            StoreError::NothingStaged => 39,
            StoreError::Memory => 8,
        }
    }
}

impl From<SnapError> for StoreError {
    ghost from_gives = { λ e s.
        (e ≡ snap_error.Memory → s ≡ NoMemory) × (e ≢ snap_error.Memory → s ≡ OfSnap e) };

    fn from(error: SnapError) -> StoreError {
        match error {
            SnapError::Memory => StoreError::Memory,
            other => StoreError::Snap(other),
        }
    }
}

impl From<TreeError> for StoreError {
    ghost from_gives = { λ e s.
        (e ≡ tree_error.Memory → s ≡ NoMemory) × (e ≢ tree_error.Memory → s ≡ OfText e) };

    fn from(error: TreeError) -> StoreError {
        match error {
            TreeError::Memory => StoreError::Memory,
            other => StoreError::Parse(other),
        }
    }
}

impl From<DeltaError> for StoreError {
    ghost from_gives = { λ e s.
        (e ≡ delta_error.Memory → s ≡ NoMemory) × (e ≢ delta_error.Memory → s ≡ OfDelta e) };

    fn from(error: DeltaError) -> StoreError {
        match error {
            DeltaError::Memory => StoreError::Memory,
            other => StoreError::Delta(other),
        }
    }
}

impl From<Memory> for StoreError {
    ghost from_gives = { λ _ e. e ≡ NoMemory };

    fn from(_error: Memory) -> StoreError {
        StoreError::Memory
    }
}

impl From<AllocError> for StoreError {
    ghost from_gives = { λ _ e. e ≡ NoMemory };

    fn from(_error: AllocError) -> StoreError {
        StoreError::Memory
    }
}

impl<T: Drop> From<AllocFailed<T>> for StoreError {
    ghost from_gives = { λ _ e. e ≡ NoMemory };

    fn from(_error: AllocFailed<T>) -> StoreError {
        StoreError::Memory
    }
}
