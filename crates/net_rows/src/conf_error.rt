ghost use Rattle.std.specs.Prelude.{◌≡◌};
ghost use Rattle.net_rows.specs.ConfError.{number_of};
ghost use Rattle.net_rows.specs.declared.conf_error.ConfError.TheVariants.{Memory as NoMemory};

use plane_io::Memory;
use std::alloc::{AllocError, AllocFailed};
use thiserror::Error;

/// Why a configuration has no rows.
#[derive(Clone, Copy, Debug, Error)]
pub enum ConfError {
    /// A list is longer than this number allows.
    #[error("limit {number}")]
    Limit { number: u64 },
    /// There was not enough memory.
    #[error("out of memory")]
    Memory,
}

impl ConfError {
    /// The number of the kind of error: 96 for `Limit`, 8 for `Memory`.
    pub fn number(&self) -> u8
        ensures { result ≡ number_of self.now }
    {
        match self {
            ConfError::Limit { .. } => 96,
            ConfError::Memory => 8,
        }
    }
}

impl From<Memory> for ConfError {
    ghost from_gives = { λ _ e. e ≡ NoMemory };

    fn from(_error: Memory) -> ConfError {
        ConfError::Memory
    }
}

impl From<AllocError> for ConfError {
    ghost from_gives = { λ _ e. e ≡ NoMemory };

    fn from(_error: AllocError) -> ConfError {
        ConfError::Memory
    }
}

impl<T: Drop> From<AllocFailed<T>> for ConfError {
    ghost from_gives = { λ _ e. e ≡ NoMemory };

    fn from(_error: AllocFailed<T>) -> ConfError {
        ConfError::Memory
    }
}
