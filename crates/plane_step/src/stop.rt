use thiserror::Error;

/// Why a script stopped in a line.
#[derive(Clone, Copy, Debug, Error)]
pub enum Stop {
    /// A line was not written, or not wholly.
    #[error("write failed")]
    WriteFailed,
    /// The disk of the files or that of staged changes failed.
    #[error("disk failed")]
    DiskFailed,
    /// There was not enough memory.
    #[error("out of memory")]
    Memory,
}
