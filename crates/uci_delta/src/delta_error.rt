ghost use Rattle.std.specs.Prelude.{◌≡◌};
ghost use Rattle.uci_delta.specs.DeltaError.{number_of};
ghost use Rattle.uci_delta.specs.declared.delta_error.DeltaError.TheVariants.{Memory as NoMemory};

use plane_io::Memory;
use std::alloc::{AllocError, AllocFailed};
use thiserror::Error;

/// Why a delta was not applied.
#[derive(Clone, Copy, Debug, Error)]
pub enum DeltaError {
    /// What is to go, to move or to get a name is not there.
    #[error("not found")]
    NotFound,
    /// A name, a type, a value or a place is not of its form, the section of an option is not
    /// there, or the delta is of no shape.
    #[error("invalid")]
    Invalid,
    /// The name that a section or an option is to get is there.
    #[error("duplicate")]
    Duplicate,
    /// There was not enough memory.
    #[error("out of memory")]
    Memory,
}

impl DeltaError {
    /// The number of the kind of error: 20 for `NotFound`, 21 for `Invalid`, 22 for `Duplicate`, 8
    /// for `Memory`.
    pub fn number(&self) -> u8
        ensures { result ≡ number_of self.now }
    {
        match self {
            DeltaError::NotFound => 20,
            DeltaError::Invalid => 21,
            DeltaError::Duplicate => 22,
            DeltaError::Memory => 8,
        }
    }
}

impl From<Memory> for DeltaError {
    ghost from_gives = { λ _ e. e ≡ NoMemory };

    fn from(_error: Memory) -> DeltaError {
        DeltaError::Memory
    }
}

impl From<AllocError> for DeltaError {
    ghost from_gives = { λ _ e. e ≡ NoMemory };

    fn from(_error: AllocError) -> DeltaError {
        DeltaError::Memory
    }
}

impl<T: Drop> From<AllocFailed<T>> for DeltaError {
    ghost from_gives = { λ _ e. e ≡ NoMemory };

    fn from(_error: AllocFailed<T>) -> DeltaError {
        DeltaError::Memory
    }
}
