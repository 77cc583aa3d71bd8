use thiserror::Error;

/// Why a run did not come to its end, or left something due.
#[derive(Clone, Copy, Debug, Error)]
pub enum GenError {
    /// Calls of the kernel failed, and so many objects are due.
    #[error("kernel: {due} due")]
    KernelFailed { due: usize },
    /// A line was not written, or not wholly.
    #[error("write")]
    WriteFailed,
    /// There was not enough memory.
    #[error("out of memory")]
    Memory,
}
