use thiserror::Error;

/// Why a network was not brought up, or not wholly.
#[derive(Clone, Copy, Debug, Error)]
pub enum StartError {
    /// A call of the kernel failed, and so many objects are due.
    #[error("kernel: {due} due")]
    KernelFailed { due: usize },
    /// A line was not written, or not wholly.
    #[error("write")]
    WriteFailed,
    /// There was not enough memory.
    #[error("out of memory")]
    Memory,
}
