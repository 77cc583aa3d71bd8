use std::alloc::{AllocError, AllocFailed};
use thiserror::Error;

/// A device did not do what it was asked.
#[derive(Clone, Copy, Debug, PartialEq, Error)]
#[error("the device failed")]
pub struct Failed;

/// There was not enough memory.
#[derive(Clone, Copy, Debug, Error)]
#[error("out of memory")]
pub struct Memory;

impl From<AllocError> for Memory {
    fn from(_error: AllocError) -> Memory {
        Memory
    }
}

impl<T: Drop> From<AllocFailed<T>> for Memory {
    fn from(_error: AllocFailed<T>) -> Memory {
        Memory
    }
}
