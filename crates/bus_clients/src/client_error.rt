ghost use Rattle.std.specs.Prelude.{◌≡◌};
ghost use Rattle.bus_clients.specs.declared.client_error.ClientError.TheVariants as refusal;

use plane_io::Memory;
use std::alloc::{AllocError, AllocFailed};
use thiserror::Error;

/// Why a line of a client is refused.
#[derive(Clone, Copy, Debug, Error)]
pub enum ClientError {
    /// The script has a client of that number open.
    #[error("client open")]
    ClientOpen,
    /// The script has no client of that number open.
    #[error("no client")]
    NoClient,
    /// There are as many clients as there may be.
    #[error("full")]
    Full,
    /// There was not enough memory.
    #[error("out of memory")]
    Memory,
}

impl From<Memory> for ClientError {
    ghost from_gives = { λ _ e. e ≡ refusal.Memory };

    fn from(_error: Memory) -> ClientError {
        ClientError::Memory
    }
}

impl From<AllocError> for ClientError {
    ghost from_gives = { λ _ e. e ≡ refusal.Memory };

    fn from(_error: AllocError) -> ClientError {
        ClientError::Memory
    }
}

impl<T: Drop> From<AllocFailed<T>> for ClientError {
    ghost from_gives = { λ _ e. e ≡ refusal.Memory };

    fn from(_error: AllocFailed<T>) -> ClientError {
        ClientError::Memory
    }
}
