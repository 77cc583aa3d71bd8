use plane_io::Text;

/// A call of a disk that changes its files, or makes them whole. A write or a cut that failed is
/// not `done`: a read then gives what it gave, and a crash may leave any part of it.
#[derive(Drop)]
pub enum DiskCall {
    /// Wrote the bytes over a file from the place `at` on.
    Write {
        file: u32,
        at: u64,
        bytes: Text,
        done: bool,
    },
    /// Cut a file to a size in bytes.
    Cut {
        file: u32,
        size: u64,
        done: bool,
    },
    /// Made all files whole.
    Sync,
}
