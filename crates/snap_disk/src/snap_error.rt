ghost use Rattle.std.specs.Prelude.{◌≡◌};
ghost use Rattle.snap_disk.specs.SnapError.{number_of};
ghost use Rattle.snap_disk.specs.declared.snap_error.SnapError.TheVariants.{Memory as NoMemory};

use plane_io::Memory;
use std::alloc::{AllocError, AllocFailed};
use thiserror::Error;

/// Why a call of a snapshot was refused.
#[derive(Clone, Copy, Debug, Error)]
pub enum SnapError {
    /// The disk failed.
    #[error("disk failed")]
    DiskFailed,
    /// An apply waits until this deadline.
    #[error("waiting until {deadline}")]
    Waiting { deadline: u64 },
    /// No apply waits.
    #[error("nothing waits")]
    NothingWaits,
    /// The snapshot has no reading: the size of the gates where that is not two, or the first wrong
    /// place of the body.
    #[error("bad snapshot at byte {byte}")]
    BadSnapshot { byte: u64 },
    /// The disk failed before, and is to be opened again.
    #[error("to be opened again")]
    Reopen,
    /// There are more packages, or one has more bytes, than this number allows.
    #[error("limit {number}")]
    Limit { number: u64 },
    /// There was not enough memory.
    #[error("out of memory")]
    Memory,
}

impl SnapError {
    /// The number of the kind of error: 30 for `DiskFailed`, 31 for `Waiting`, 32 for
    /// `NothingWaits`, 33 for `BadSnapshot`, 34 for `Reopen`, 10 for `Limit`, 8 for `Memory`.
    pub fn number(&self) -> u8
        ensures { result ≡ number_of self.now }
    {
        match self {
            SnapError::DiskFailed => 30,
            SnapError::Waiting { .. } => 31,
            SnapError::NothingWaits => 32,
            SnapError::BadSnapshot { .. } => 33,
            SnapError::Reopen => 34,
            SnapError::Limit { .. } => 10,
            SnapError::Memory => 8,
        }
    }
}

impl From<Memory> for SnapError {
    ghost from_gives = { λ _ e. e ≡ NoMemory };

    fn from(_error: Memory) -> SnapError {
        SnapError::Memory
    }
}

impl From<AllocError> for SnapError {
    ghost from_gives = { λ _ e. e ≡ NoMemory };

    fn from(_error: AllocError) -> SnapError {
        SnapError::Memory
    }
}

impl<T: Drop> From<AllocFailed<T>> for SnapError {
    ghost from_gives = { λ _ e. e ≡ NoMemory };

    fn from(_error: AllocFailed<T>) -> SnapError {
        SnapError::Memory
    }
}
