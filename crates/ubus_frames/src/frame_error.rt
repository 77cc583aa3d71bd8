ghost use Rattle.std.specs.Prelude.{◌≡◌, ◌≢◌, IfOk};
ghost use Rattle.ubus_frames.specs.declared.frame_error.FrameError.TheVariants.{Memory as NoMemory};
ghost use Rattle.ubus_frames.specs.FrameError.{number_of, refused_by};

use blob_codec::BlobError;
use plane_io::Memory;
use std::alloc::AllocError;
use thiserror::Error;

/// Why bytes are no frame: the first fault, or want of memory.
#[derive(Clone, Copy, Debug, Error)]
pub enum FrameError {
    /// The first byte is not 0.
    #[error("the frame has version {byte}")]
    Version { byte: u8 },
    /// The frame has more than 1,048,576 bytes behind its first eight.
    #[error("the frame has a blob of {length} bytes")]
    TooLong { length: u32 },
    /// The frame's blob has this fault, whose place counts from the frame's first byte.
    #[error("the frame is bad: {0}")]
    BadBlob(BlobError),
    /// There was not enough memory.
    #[error("out of memory")]
    Memory,
}

impl FrameError {
    /// The number of the kind of error: 50 for `Version`, 51 for `TooLong`, 52 for `BadBlob`, 8 for
    /// `Memory`.
    pub fn number(&self) -> u8
        ensures { result ≡ number_of self.now }
    {
        match self {
            FrameError::Version { .. } => 50,
            FrameError::TooLong { .. } => 51,
            FrameError::BadBlob(_) => 52,
            FrameError::Memory => 8,
        }
    }
}

impl FrameError {
    /// The fault, or want of memory.
    pub(crate) fn fault(self) -> Result<FrameError, Memory>
        ensures { IfOk result (λ fault. (fault ≡ self) × (fault ≢ NoMemory)) }
    {
        match self {
            FrameError::Version { .. } | FrameError::TooLong { .. } | FrameError::BadBlob(_) => {
                Ok(self)
            }
            FrameError::Memory => Err(Memory),
        }
    }
}

impl From<AllocError> for FrameError {
    ghost from_gives = { λ _ error. error ≡ NoMemory };

    fn from(_error: AllocError) -> FrameError {
        FrameError::Memory
    }
}

impl From<BlobError> for FrameError {
    ghost from_gives = { λ error e. e ≡ refused_by error };

    fn from(error: BlobError) -> FrameError {
        match error {
            BlobError::Memory => FrameError::Memory,
            _ => FrameError::BadBlob(error),
        }
    }
}
