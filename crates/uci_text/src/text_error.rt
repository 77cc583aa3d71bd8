ghost use Rattle.std.specs.Prelude.{◌≡◌};
ghost use Rattle.uci_text.specs.TextError.{number_of};
ghost use Rattle.uci_text.specs.declared.text_error.TextError.TheVariants.{Memory as NoMemory};

use plane_io::Memory;
use std::alloc::{AllocError, AllocFailed};
use thiserror::Error;

/// Why a text was not read: its first fault, or want of memory.
#[derive(Clone, Copy, Debug, Error)]
pub enum TextError {
    /// A zero byte is on this line, or a backslash that is the last byte and stands outside quotes
    /// and comments.
    #[error("bad word in line {line}")]
    BadWord { line: u32 },
    /// The quote that opens on this line is not closed.
    #[error("open quote in line {line}")]
    OpenQuote { line: u32 },
    /// The first word of the command on this line is not in the table of commands.
    #[error("unknown command in line {line}")]
    UnknownCommand { line: u32 },
    /// The command on this line has too few arguments or too many.
    #[error("argument count in line {line}")]
    ArgumentCount { line: u32 },
    /// An argument of the command on this line is not the name or the type that it stands for.
    #[error("bad name in line {line}")]
    BadName { line: u32 },
    /// There was not enough memory.
    #[error("out of memory")]
    Memory,
}

impl TextError {
    /// The number of the kind of error: 10 for `BadWord`, 11 for `OpenQuote`, 12 for
    /// `UnknownCommand`, 13 for `ArgumentCount`, 14 for `BadName`, 8 for `Memory`.
    pub fn number(&self) -> u8
        ensures { result ≡ number_of self.now }
    {
        match self {
            TextError::BadWord { .. } => 10,
            TextError::OpenQuote { .. } => 11,
            TextError::UnknownCommand { .. } => 12,
            TextError::ArgumentCount { .. } => 13,
            TextError::BadName { .. } => 14,
            TextError::Memory => 8,
        }
    }
}

impl From<Memory> for TextError {
    ghost from_gives = { λ _ e. e ≡ NoMemory };

    fn from(_error: Memory) -> TextError {
        TextError::Memory
    }
}

impl From<AllocError> for TextError {
    ghost from_gives = { λ _ e. e ≡ NoMemory };

    fn from(_error: AllocError) -> TextError {
        TextError::Memory
    }
}

impl<T: Drop> From<AllocFailed<T>> for TextError {
    ghost from_gives = { λ _ e. e ≡ NoMemory };

    fn from(_error: AllocFailed<T>) -> TextError {
        TextError::Memory
    }
}
