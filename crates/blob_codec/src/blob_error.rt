ghost use Rattle.std.specs.Prelude.{◌≡◌};
ghost use Rattle.blob_codec.specs.BlobError.{number_of};
ghost use Rattle.blob_codec.specs.declared.blob_error.BlobError.TheVariants.{Memory as NoMemory};

use plane_io::Memory;
use std::alloc::{AllocError, AllocFailed};
use thiserror::Error;

/// Why bytes were not read as a blob: the first fault with the place of its attribute's first byte,
/// or want of memory.
#[derive(Clone, Copy, Debug, Error)]
pub enum BlobError {
    /// Fewer than four bytes are left, or the attribute with its padding passes the end.
    #[error("the attribute at {at} is cut short")]
    Short { at: usize },
    /// The length is below 4, the name does not end within the attribute at its zero byte, or the
    /// value has another size than its type.
    #[error("the attribute at {at} has a bad length")]
    BadLength { at: usize },
    /// The attribute is not one of the message bus, or has an unknown type.
    #[error("the attribute at {at} has a bad type")]
    BadType { at: usize },
    /// The value is a double, which is not taken.
    #[error("the attribute at {at} is a double")]
    Double { at: usize },
    /// The first zero byte of the string is not its last byte.
    #[error("the string at {at} has no zero byte at its end alone")]
    NoNul { at: usize },
    /// The array or table stands within 32 others.
    #[error("the attribute at {at} nests too deep")]
    Deep { at: usize },
    /// There was not enough memory.
    #[error("out of memory")]
    Memory,
}

impl BlobError {
    /// The number of the kind of error: 40 for `Short`, 41 for `BadLength`, 42 for `BadType`, 43
    /// for `Double`, 44 for `NoNul`, 45 for `Deep`, 8 for `Memory`.
    pub fn number(&self) -> u8
        ensures { result ≡ number_of self.now }
    {
        match self {
            BlobError::Short { .. } => 40,
            BlobError::BadLength { .. } => 41,
            BlobError::BadType { .. } => 42,
            BlobError::Double { .. } => 43,
            BlobError::NoNul { .. } => 44,
            BlobError::Deep { .. } => 45,
            BlobError::Memory => 8,
        }
    }
}

impl From<Memory> for BlobError {
    ghost from_gives = { λ _ e. e ≡ NoMemory };

    fn from(_error: Memory) -> BlobError {
        BlobError::Memory
    }
}

impl From<AllocError> for BlobError {
    ghost from_gives = { λ _ e. e ≡ NoMemory };

    fn from(_error: AllocError) -> BlobError {
        BlobError::Memory
    }
}

impl<T: Drop> From<AllocFailed<T>> for BlobError {
    ghost from_gives = { λ _ e. e ≡ NoMemory };

    fn from(_error: AllocFailed<T>) -> BlobError {
        BlobError::Memory
    }
}
