ghost use Rattle.std.specs.Prelude.{◌≡◌, IfErr, IfOk};
ghost use Rattle.plane_disk.specs.View.{View};
ghost use Rattle.uci_tool.specs.Shut as spec;

use snap_disk::SnapError;
use uci_cli::{BAD_SNAPSHOT, DISK_FAILED, OUT_OF_MEMORY, TOO_LARGE};
use uci_store::StoreError;

/// Why a folder was not opened.
#[derive(Clone, Copy)]
pub enum Shut {
    /// A disk failed.
    DiskFailed,
    /// There was not enough memory.
    Memory,
    /// A file passes its limit, or the number of files does.
    TooLarge,
    /// What an earlier run left of an apply has no reading.
    BadSnapshot,
}

impl Shut {
    /// The exit status: 5, 8, 10 or 12.
    pub fn status(self) -> u8
        ensures { result ≡ spec.status_of self }
    {
        match self {
            Shut::DiskFailed => 5,
            Shut::Memory => 8,
            Shut::TooLarge => 10,
            Shut::BadSnapshot => 12,
        }
    }

    /// The text on the error output.
    pub fn text(self) -> &'static [u8]
        ensures { result.now ≡ spec.text_of self }
    {
        match self {
            Shut::DiskFailed => DISK_FAILED,
            Shut::Memory => OUT_OF_MEMORY,
            Shut::TooLarge => TOO_LARGE,
            Shut::BadSnapshot => BAD_SNAPSHOT,
        }
    }
}

/// Why the store refused to open.
pub(crate) fn shut_of(error: StoreError) -> Shut
    ensures { result ≡ spec.shut_of error }
{
    match error {
        StoreError::Snap(SnapError::BadSnapshot { .. }) => Shut::BadSnapshot,
        StoreError::Snap(SnapError::Limit { .. }) => Shut::TooLarge,
        StoreError::Snap(SnapError::Memory) | StoreError::Memory => Shut::Memory,
        _ => Shut::DiskFailed,
    }
}
