ghost use Rattle.std.specs.Prelude.{◌≡◌};
ghost use Rattle.uci_staged.specs.StagedError.{number_of};
ghost use Rattle.uci_staged.specs.declared.staged_error.StagedError.TheVariants as refusal;

use plane_io::{Failed, Memory};
use std::alloc::{AllocError, AllocFailed};
use thiserror::Error;

/// Why staged changes were not read, or not kept.
#[derive(Clone, Copy, Debug, Error)]
pub enum StagedError {
    /// The disk failed.
    #[error("disk failed")]
    DiskFailed,
    /// There was not enough memory.
    #[error("out of memory")]
    Memory,
}

impl StagedError {
    /// The number of the kind of error: 30 for `DiskFailed`, 8 for `Memory`.
    pub fn number(&self) -> u8
        ensures { result ≡ number_of self.now }
    {
        match self {
            StagedError::DiskFailed => 30,
            StagedError::Memory => 8,
        }
    }
}

impl From<Failed> for StagedError {
    ghost from_gives = { λ _ e. e ≡ refusal.DiskFailed };

    fn from(_error: Failed) -> StagedError {
        StagedError::DiskFailed
    }
}

impl From<Memory> for StagedError {
    ghost from_gives = { λ _ e. e ≡ refusal.Memory };

    fn from(_error: Memory) -> StagedError {
        StagedError::Memory
    }
}

impl From<AllocError> for StagedError {
    ghost from_gives = { λ _ e. e ≡ refusal.Memory };

    fn from(_error: AllocError) -> StagedError {
        StagedError::Memory
    }
}

impl<T: Drop> From<AllocFailed<T>> for StagedError {
    ghost from_gives = { λ _ e. e ≡ refusal.Memory };

    fn from(_error: AllocFailed<T>) -> StagedError {
        StagedError::Memory
    }
}
