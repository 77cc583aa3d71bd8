ghost use Rattle.std.specs.Prelude.{◌≡◌};
ghost use Rattle.uci_tree.specs.Fault as spec;

use crate::TreeError;
use uci_text::TextError;

const BAD_WORD: &[u8] = b"bad word";

const OPEN_QUOTE: &[u8] = b"open quote";

const UNKNOWN_COMMAND: &[u8] = b"unknown command";

const ARGUMENT_COUNT: &[u8] = b"argument count";

const BAD_NAME: &[u8] = b"bad name";

const NO_SECTION: &[u8] = b"no section";

/// What is wrong with a text that is no package.
#[derive(Clone, Copy)]
pub enum Reason {
    /// A zero byte, or a backslash that is the last byte and stands outside quotes and comments.
    BadWord,
    /// A quote that is not closed.
    OpenQuote,
    /// A command that is not in the table of commands.
    UnknownCommand,
    /// A command with too few arguments or too many.
    ArgumentCount,
    /// An argument that is not the name or the type that it stands for.
    BadName,
    /// An option or a list before any section.
    NoSection,
}

/// Where a text is no package, and why.
#[derive(Clone, Copy)]
pub struct Fault {
    /// The number of the line, from 1.
    pub line: u32,
    pub reason: Reason,
}

impl Reason {
    /// The reason in words, as the program tells it to its users.
    pub fn text(self) -> &'static [u8]
        ensures { result.now ≡ spec.reason_text self }
    {
        match self {
            Reason::BadWord => BAD_WORD,
            Reason::OpenQuote => OPEN_QUOTE,
            Reason::UnknownCommand => UNKNOWN_COMMAND,
            Reason::ArgumentCount => ARGUMENT_COUNT,
            Reason::BadName => BAD_NAME,
            Reason::NoSection => NO_SECTION,
        }
    }
}

impl TreeError {
    /// The fault of the text, or `None` where there was not enough memory to find one.
    pub fn fault(&self) -> Option<Fault>
        ensures { result ≡ spec.fault_of self.now }
    {
        let (line, reason) = match self {
            TreeError::Text(TextError::BadWord { line }) => (*line, Reason::BadWord),
            TreeError::Text(TextError::OpenQuote { line }) => (*line, Reason::OpenQuote),
            TreeError::Text(TextError::UnknownCommand { line }) => (*line, Reason::UnknownCommand),
            TreeError::Text(TextError::ArgumentCount { line }) => (*line, Reason::ArgumentCount),
            TreeError::Text(TextError::BadName { line }) => (*line, Reason::BadName),
            TreeError::NoSection { line } => (*line, Reason::NoSection),
            TreeError::Text(TextError::Memory) | TreeError::Memory => return None,
        };
        Some(Fault { line, reason })
    }
}
