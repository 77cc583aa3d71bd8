ghost use Rattle.std.specs.Prelude.{◌≡◌};
ghost use Rattle.script_lines.specs.CallStatus as spec;

/// The status of a call of a method that was not carried out (the statuses of libubus).
#[derive(Clone, Copy)]
pub enum CallStatus {
    InvalidCommand,
    InvalidArgument,
    MethodNotFound,
    NotFound,
    NoData,
    PermissionDenied,
    Timeout,
    NotSupported,
    UnknownError,
    ConnectionFailed,
    NoMemory,
}

impl CallStatus {
    /// The number of the status, from 1 to 11.
    pub fn number(self) -> u8
        ensures { result ≡ spec.status_number self }
    {
        match self {
            CallStatus::InvalidCommand => 1,
            CallStatus::InvalidArgument => 2,
            CallStatus::MethodNotFound => 3,
            CallStatus::NotFound => 4,
            CallStatus::NoData => 5,
            CallStatus::PermissionDenied => 6,
            CallStatus::Timeout => 7,
            CallStatus::NotSupported => 8,
            CallStatus::UnknownError => 9,
            CallStatus::ConnectionFailed => 10,
            CallStatus::NoMemory => 11,
        }
    }

    /// The name of the status, in lower case and with spaces.
    pub fn words(self) -> &'static [u8]
        ensures { result.now ≡ spec.status_words self }
    {
        match self {
            CallStatus::InvalidCommand => b"invalid command",
            CallStatus::InvalidArgument => b"invalid argument",
            CallStatus::MethodNotFound => b"method not found",
            CallStatus::NotFound => b"not found",
            CallStatus::NoData => b"no data",
            CallStatus::PermissionDenied => b"permission denied",
            CallStatus::Timeout => b"timeout",
            CallStatus::NotSupported => b"not supported",
            CallStatus::UnknownError => b"unknown error",
            CallStatus::ConnectionFailed => b"connection failed",
            CallStatus::NoMemory => b"no memory",
        }
    }
}
