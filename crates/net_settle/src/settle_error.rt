use thiserror::Error;

/// Why a settling stopped.
#[derive(Clone, Copy, Debug, Error)]
pub enum SettleError {
    /// The kernel failed at a call.
    #[error("kernel")]
    KernelFailed,
    /// The line of a call was not written, or not wholly.
    #[error("write")]
    WriteFailed,
}
