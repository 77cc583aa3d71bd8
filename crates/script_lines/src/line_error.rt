ghost use Rattle.std.specs.Prelude.{◌≡◌};
ghost use Rattle.script_lines.specs.LineError as spec;

use crate::CallStatus;

/// Why a line of a script is refused.
#[derive(Clone, Copy)]
pub enum LineError {
    /// There was not enough memory.
    Memory,
    /// A path, a section or an option is not there.
    NotFound,
    /// A change is of no form that a package takes.
    Invalid,
    /// A name is taken.
    Duplicate,
    /// A disk failed.
    Disk,
    /// An apply waits.
    Waiting,
    /// No file has the package's name.
    NoPackage,
    /// A package's file does not read.
    Parse,
    /// A package that was to be written has more bytes than a file may have.
    TooLarge,
    /// A value nests too deep.
    Deep,
    /// A number has a fraction.
    Fraction,
    /// A number is too wide.
    Wide,
    /// A value is no table.
    NotTable,
    /// A frame is of another version.
    Version,
    /// A frame is too long.
    TooLong,
    /// A frame's blob does not read.
    BadBlob,
    /// There are as many clients as there may be.
    Full,
    /// No client of that number is open.
    NoClient,
    /// A client of that number is open.
    ClientOpen,
    /// No interface has that name.
    NoInterface,
    /// The number is not that of the open request, which is `current`, and 0 where there is none.
    Stale { given: u64, current: u64 },
    /// No device of that name is present.
    NoDevice,
    /// A call of the kernel failed.
    KernelFailed,
    /// The name of a device that comes is taken.
    Known,
    /// An answer of a radio has another number of ports than its request has rows.
    WrongPorts { wanted: u64 },
    /// A list is longer than this number allows.
    Limit { number: u64 },
    /// The words are in no row of the table of lines, or an argument is of no such form. It is this
    /// line of the script.
    BadLine { line: u32 },
    /// No radio has that name.
    NoRadio,
    /// The moment is before the last one.
    Moment,
    /// A call of a method has this status.
    Status(CallStatus),
}

impl LineError {
    /// The number of the kind of error: 100 and the status for one of a call.
    pub fn number(&self) -> u8
        ensures { result ≡ spec.number_of self.now }
    {
        match self {
            LineError::Memory => 8,
            LineError::NotFound => 20,
            LineError::Invalid => 21,
            LineError::Duplicate => 22,
            LineError::Disk => 30,
            LineError::Waiting => 31,
            LineError::NoPackage => 35,
            LineError::Parse => 36,
            LineError::TooLarge => 37,
            LineError::Deep => 45,
            LineError::Fraction => 46,
            LineError::Wide => 47,
            LineError::NotTable => 48,
            LineError::Version => 50,
            LineError::TooLong => 51,
            LineError::BadBlob => 52,
            LineError::Full => 60,
            LineError::NoClient => 61,
            LineError::ClientOpen => 64,
            LineError::NoInterface => 90,
            LineError::Stale { .. } => 91,
            LineError::NoDevice => 92,
            LineError::KernelFailed => 93,
            LineError::Known => 94,
            LineError::WrongPorts { .. } => 95,
            LineError::Limit { .. } => 96,
            LineError::BadLine { .. } => 97,
            LineError::NoRadio => 98,
            LineError::Moment => 99,
            LineError::Status(status) => 100 + status.number(),
        }
    }

    /// The words of its text, in front of its arguments.
    pub(crate) fn words(&self) -> &'static [u8]
        ensures { result.now ≡ spec.words_of self.now }
    {
        match self {
            LineError::Memory => b"memory",
            LineError::NotFound => b"not found",
            LineError::Invalid => b"invalid",
            LineError::Duplicate => b"duplicate",
            LineError::Disk => b"disk",
            LineError::Waiting => b"waiting",
            LineError::NoPackage => b"no package",
            LineError::Parse => b"parse",
            LineError::TooLarge => b"too large",
            LineError::Deep => b"deep",
            LineError::Fraction => b"fraction",
            LineError::Wide => b"wide",
            LineError::NotTable => b"not table",
            LineError::Version => b"version",
            LineError::TooLong => b"too long",
            LineError::BadBlob => b"bad blob",
            LineError::Full => b"full",
            LineError::NoClient => b"no client",
            LineError::ClientOpen => b"client open",
            LineError::NoInterface => b"no interface",
            LineError::Stale { .. } => b"stale",
            LineError::NoDevice => b"no device",
            LineError::KernelFailed => b"kernel",
            LineError::Known => b"known",
            LineError::WrongPorts { .. } => b"wrong ports",
            LineError::Limit { .. } => b"limit",
            LineError::BadLine { .. } => b"bad line",
            LineError::NoRadio => b"no radio",
            LineError::Moment => b"moment",
            LineError::Status(status) => status.words(),
        }
    }
}
