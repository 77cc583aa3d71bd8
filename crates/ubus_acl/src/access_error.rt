ghost use Rattle.std.specs.Prelude.{◌≡◌};
ghost use Rattle.ubus_acl.specs.AclError.{number_of};
ghost use Rattle.ubus_acl.specs.declared.access_error.AclError.TheVariants.{Memory as NoMemory};

use plane_io::Memory;
use std::alloc::{AllocError, AllocFailed};
use thiserror::Error;

/// Why a text is no access list.
#[derive(Clone, Copy, Debug, Error)]
pub enum AclError {
    /// The text is no JSON array, or nests more than 127 levels deep.
    #[error("no JSON array")]
    BadJson,
    /// The first item that is no record, counted from 0.
    #[error("item {index} is no record")]
    BadRecord { index: usize },
    /// There was not enough memory.
    #[error("out of memory")]
    Memory,
}

impl AclError {
    /// The number of the kind of error: 62 for `BadJson`, 63 for `BadRecord`, 8 for `Memory`.
    pub fn number(&self) -> u8
        ensures { result ≡ number_of self.now }
    {
        match self {
            AclError::BadJson => 62,
            AclError::BadRecord { .. } => 63,
            AclError::Memory => 8,
        }
    }
}

impl From<Memory> for AclError {
    ghost from_gives = { λ _ e. e ≡ NoMemory };

    fn from(_error: Memory) -> AclError {
        AclError::Memory
    }
}

impl From<AllocError> for AclError {
    ghost from_gives = { λ _ e. e ≡ NoMemory };

    fn from(_error: AllocError) -> AclError {
        AclError::Memory
    }
}

impl<T: Drop> From<AllocFailed<T>> for AclError {
    ghost from_gives = { λ _ e. e ≡ NoMemory };

    fn from(_error: AllocFailed<T>) -> AclError {
        AclError::Memory
    }
}
