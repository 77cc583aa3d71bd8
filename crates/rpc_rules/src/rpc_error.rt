ghost use Rattle.std.specs.Prelude.{◌≡◌};
ghost use Rattle.rpc_rules.specs.Status.{error_of};
ghost use Rattle.rpc_rules.specs.declared.rpc_error.RpcError.TheVariants.{Memory as NoMemory};

use plane_io::Memory;
use rpc_session::Grant;
use std::alloc::{AllocError, AllocFailed};
use thiserror::Error;
use uci_delta::DeltaError;

/// An argument is missing or of another form, or a file does not read.
pub(crate) const BAD_ARGUMENT: u32 = 2;

/// What is named is not there.
pub(crate) const NOT_FOUND: u32 = 4;

/// Why a call of the object `uci` was refused.
#[derive(Debug, Drop, Error)]
pub enum RpcError {
    /// The call ends with this status of the message bus.
    #[error("status {0}")]
    Status(u32),
    /// The caller lacks this grant, which ends the call with status 6.
    #[error("a grant is missing")]
    Denied(Grant),
    /// A disk failed.
    #[error("a disk failed")]
    DiskFailed,
    /// There was not enough memory.
    #[error("out of memory")]
    Memory,
}

impl From<DeltaError> for RpcError {
    ghost from_gives = { λ d e. e ≡ error_of d };

    fn from(error: DeltaError) -> RpcError {
        match error {
            DeltaError::NotFound => RpcError::Status(NOT_FOUND),
            DeltaError::Invalid | DeltaError::Duplicate => RpcError::Status(BAD_ARGUMENT),
            DeltaError::Memory => RpcError::Memory,
        }
    }
}

impl From<Memory> for RpcError {
    ghost from_gives = { λ _ e. e ≡ NoMemory };

    fn from(_error: Memory) -> RpcError {
        RpcError::Memory
    }
}

impl From<AllocError> for RpcError {
    ghost from_gives = { λ _ e. e ≡ NoMemory };

    fn from(_error: AllocError) -> RpcError {
        RpcError::Memory
    }
}

impl<T: Drop> From<AllocFailed<T>> for RpcError {
    ghost from_gives = { λ _ e. e ≡ NoMemory };

    fn from(_error: AllocFailed<T>) -> RpcError {
        RpcError::Memory
    }
}
