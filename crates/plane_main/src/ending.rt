ghost use Rattle.std.specs.Prelude.{◌≡◌};
ghost use Rattle.plane_main.specs.Ending.{status_of};

use plane_run::RunEnd;
use uci_tree::Fault;

/// How a run ends.
#[derive(Clone, Copy)]
pub enum Ending {
    Done,
    Usage,
    ReadFailed,
    WriteFailed,
    KernelFailed { left: usize },
    OutOfMemory,
    /// The input is no package.
    Unreadable { fault: Fault },
    /// The input is longer than it may be, or a list of its rows is.
    TooLong { limit: u64 },
    /// A run of `uci`, which has told its own text.
    OfUci { status: u8 },
    /// A run of a script.
    OfRun { end: RunEnd },
}

impl Ending {
    /// The exit status of the program.
    pub fn status(&self) -> u8
        ensures { result ≡ status_of self.now }
    {
        match self {
            Ending::Done => 0,
            Ending::Usage => 2,
            Ending::ReadFailed => 3,
            Ending::WriteFailed => 4,
            Ending::KernelFailed { .. } => 6,
            Ending::OutOfMemory => 8,
            Ending::Unreadable { .. } => 9,
            Ending::TooLong { .. } => 10,
            Ending::OfUci { status } => *status,
            Ending::OfRun { end } => end.status(),
        }
    }
}
