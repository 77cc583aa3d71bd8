ghost use Rattle.std.specs.Prelude.{◌≡◌};
ghost use Rattle.plane_run.specs.RunEnd as spec;

use uci_tree::Fault;

/// A package of which rows are loaded.
#[derive(Clone, Copy)]
pub enum RowPackage {
    Network,
    Wireless,
}

impl RowPackage {
    /// The name of the package.
    pub fn name(self) -> &'static [u8]
        ensures { result.now ≡ spec.name_of self }
    {
        match self {
            RowPackage::Network => b"network",
            RowPackage::Wireless => b"wireless",
        }
    }
}

/// How a run ends.
#[derive(Clone, Copy)]
pub enum RunEnd {
    /// Every line was ok, and nothing is due.
    Done,
    /// A line was refused, and nothing is due.
    Refused,
    ReadFailed,
    WriteFailed,
    DiskFailed,
    /// So many objects are due at the kernel.
    KernelFailed { left: usize },
    OutOfMemory,
    /// A package whose rows are to be loaded does not read.
    Unreadable { package: RowPackage, fault: Fault },
    /// The folder, a list of rows or the script is longer than it may be.
    TooLong { limit: u64 },
    /// What an apply left in the folder has no reading.
    BadSnapshot { byte: u64 },
}

impl RunEnd {
    /// The exit status.
    pub fn status(&self) -> u8
        ensures { result ≡ spec.status_of self.now }
    {
        match self {
            RunEnd::Done => 0,
            RunEnd::Refused => 1,
            RunEnd::ReadFailed => 3,
            RunEnd::WriteFailed => 4,
            RunEnd::DiskFailed => 5,
            RunEnd::KernelFailed { .. } => 6,
            RunEnd::OutOfMemory => 8,
            RunEnd::Unreadable { .. } => 9,
            RunEnd::TooLong { .. } => 10,
            RunEnd::BadSnapshot { .. } => 12,
        }
    }
}
