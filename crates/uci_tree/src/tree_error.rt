ghost use Rattle.std.specs.Prelude.{◌≡◌, ◌≢◌};
ghost use Rattle.uci_tree.specs.TreeError.{number_of};
ghost use Rattle.uci_text.specs.declared.text_error.TextError.TheVariants as text_error;
ghost use Rattle.uci_tree.specs.declared.tree_error.TreeError.TheVariants.{Memory as NoMemory};
ghost use Rattle.uci_tree.specs.declared.tree_error.TreeError.TheVariants.{Text as OfText};

use plane_io::Memory;
use std::alloc::{AllocError, AllocFailed};
use thiserror::Error;
use uci_text::TextError;

/// Why a text was not read as a package.
#[derive(Clone, Copy, Debug, Error)]
pub enum TreeError {
    /// The text has no commands: its first fault.
    #[error("{0}")]
    Text(TextError),
    /// An option or a list on this line stands before any section.
    #[error("no section in line {line}")]
    NoSection { line: u32 },
    /// There was not enough memory.
    #[error("out of memory")]
    Memory,
}

impl TreeError {
    /// The number of the kind of error: that of the text's fault, 15 for `NoSection`, 8 for
    /// `Memory`.
    pub fn number(&self) -> u8
        ensures { result ≡ number_of self.now }
    {
        match self {
            TreeError::Text(error) => error.number(),
            TreeError::NoSection { .. } => 15,
            TreeError::Memory => 8,
        }
    }
}

impl From<TextError> for TreeError {
    ghost from_gives = { λ e t.
        (e ≡ text_error.Memory → t ≡ NoMemory) × (e ≢ text_error.Memory → t ≡ OfText e) };

    fn from(error: TextError) -> TreeError {
        match error {
            TextError::Memory => TreeError::Memory,
            other => TreeError::Text(other),
        }
    }
}

impl From<Memory> for TreeError {
    ghost from_gives = { λ _ e. e ≡ NoMemory };

    fn from(_error: Memory) -> TreeError {
        TreeError::Memory
    }
}

impl From<AllocError> for TreeError {
    ghost from_gives = { λ _ e. e ≡ NoMemory };

    fn from(_error: AllocError) -> TreeError {
        TreeError::Memory
    }
}

impl<T: Drop> From<AllocFailed<T>> for TreeError {
    ghost from_gives = { λ _ e. e ≡ NoMemory };

    fn from(_error: AllocFailed<T>) -> TreeError {
        TreeError::Memory
    }
}
