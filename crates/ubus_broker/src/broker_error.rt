ghost use Rattle.std.specs.Prelude.{◌≡◌};
ghost use Rattle.ubus_broker.specs.BrokerError.{number_of};

use plane_io::Memory;
use std::alloc::{AllocError, AllocFailed};
use thiserror::Error;

/// Why a call of the broker was refused.
#[derive(Clone, Copy, Debug, Error)]
pub enum BrokerError {
    /// There are 256 clients, or their numbers are used up.
    #[error("too many clients")]
    Full,
    /// No client of that number is connected.
    #[error("no such client")]
    NoClient,
    /// There was not enough memory.
    #[error("out of memory")]
    Memory,
}

impl BrokerError {
    /// The number of the kind of error: 60 for `Full`, 61 for `NoClient`, 8 for `Memory`.
    pub fn number(&self) -> u8
        ensures { result ≡ number_of self.now }
    {
        match self {
            BrokerError::Full => 60,
            BrokerError::NoClient => 61,
            BrokerError::Memory => 8,
        }
    }
}

impl From<Memory> for BrokerError {
    fn from(_error: Memory) -> BrokerError
        ensures { result ≡ BrokerError.Memory }
    {
        BrokerError::Memory
    }
}

impl From<AllocError> for BrokerError {
    fn from(_error: AllocError) -> BrokerError
        ensures { result ≡ BrokerError.Memory }
    {
        BrokerError::Memory
    }
}

impl<T: Drop> From<AllocFailed<T>> for BrokerError {
    fn from(_error: AllocFailed<T>) -> BrokerError
        ensures { result ≡ BrokerError.Memory }
    {
        BrokerError::Memory
    }
}
