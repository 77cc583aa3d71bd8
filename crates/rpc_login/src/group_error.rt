ghost use Rattle.std.specs.Prelude.{◌≡◌};
ghost use Rattle.rpc_login.specs.GroupError.{number_of};
ghost use Rattle.rpc_login.specs.declared.group_error.GroupError.TheVariants.{Memory as NoMemory};

use plane_io::Memory;
use std::alloc::{AllocError, AllocFailed};
use thiserror::Error;

/// Why a text is no list of groups.
#[derive(Clone, Copy, Debug, Error)]
pub enum GroupError {
    /// The text is no JSON array, or nests more than 127 levels deep.
    #[error("no JSON array")]
    BadJson,
    /// The first element that is no object of groups, counted from 0.
    #[error("element {index} is no object of groups")]
    BadGroup { index: usize },
    /// There was not enough memory.
    #[error("out of memory")]
    Memory,
}

impl GroupError {
    /// The number of the kind of error: 120 for `BadJson`, 121 for `BadGroup`, 8 for `Memory`.
    pub fn number(&self) -> u8
        ensures { result ≡ number_of self.now }
    {
        match self {
            GroupError::BadJson => 120,
            GroupError::BadGroup { .. } => 121,
            GroupError::Memory => 8,
        }
    }
}

impl From<Memory> for GroupError {
    ghost from_gives = { λ _ e. e ≡ NoMemory };

    fn from(_error: Memory) -> GroupError {
        GroupError::Memory
    }
}

impl From<AllocError> for GroupError {
    ghost from_gives = { λ _ e. e ≡ NoMemory };

    fn from(_error: AllocError) -> GroupError {
        GroupError::Memory
    }
}

impl<T: Drop> From<AllocFailed<T>> for GroupError {
    ghost from_gives = { λ _ e. e ≡ NoMemory };

    fn from(_error: AllocFailed<T>) -> GroupError {
        GroupError::Memory
    }
}
