ghost use Rattle.std.specs.Prelude.{◌≡◌, ◌++◌, OnOk};
ghost use Rattle.uci_cli.specs.Refusal as spec;

use crate::values::append_number;
use plane_io::Memory;
use uci_tree::Fault;

/// The text where the words ask for no command.
pub const USAGE: &[u8] = b"uci: usage\n";

/// The text where there was not enough memory.
pub const OUT_OF_MEMORY: &[u8] = b"uci: Out of memory\n";

/// The text where a device failed.
pub const DISK_FAILED: &[u8] = b"uci: I/O error\n";

/// The text where an input or a file passes its limit, or a package would.
pub const TOO_LARGE: &[u8] = b"uci: Too large\n";

/// The text where the folder's snapshot has no reading.
pub const BAD_SNAPSHOT: &[u8] = b"uci: Bad snapshot\n";

const NOT_FOUND: &[u8] = b"uci: Entry not found\n";

const INVALID: &[u8] = b"uci: Invalid argument\n";

const DUPLICATE: &[u8] = b"uci: Duplicate entry\n";

const WAITING: &[u8] = b"uci: Apply waits\n";

const PARSE_ERROR: &[u8] = b"uci: Parse error (";

const AT_LINE: &[u8] = b") at line ";

const NEWLINE: &[u8] = b"\n";

/// Why a command is refused.
#[derive(Clone, Copy)]
pub enum Refusal {
    /// What a path leads to is not there.
    NotFound,
    /// An argument is not of its form, or the package does not take the change.
    Invalid,
    /// The name that a section or an option is to get is there.
    Duplicate,
    /// An apply waits for its confirm.
    Waiting,
    /// No file has the package's name.
    NoPackage,
    /// A text does not read.
    Parse { fault: Fault },
    /// The package does not fit into a file.
    TooLarge,
}

impl Refusal {
    /// The number of the refusal: 20 for `NotFound`, 21 for `Invalid`, 22 for `Duplicate`, 31 for
    /// `Waiting`, 35 for `NoPackage`, 36 for `Parse`, 37 for `TooLarge`.
    pub fn number(&self) -> u8
        ensures { result ≡ spec.number_of self.now }
    {
        match self {
            Refusal::NotFound => 20,
            Refusal::Invalid => 21,
            Refusal::Duplicate => 22,
            Refusal::Waiting => 31,
            Refusal::NoPackage => 35,
            Refusal::Parse { .. } => 36,
            Refusal::TooLarge => 37,
        }
    }

    /// Appends the line that tells it.
    ///
    /// # Errors
    ///
    /// Want of memory.
    pub fn tell(&self, out: &mut Vec<u8>) -> Result<(), Memory>
        ensures { OnOk result (out.new.items ≡ out.old.items ++ spec.text_of self.now) }
    {
        match self {
            Refusal::NotFound | Refusal::NoPackage => out.extend_from_slice(NOT_FOUND)?,
            Refusal::Invalid => out.extend_from_slice(INVALID)?,
            Refusal::Duplicate => out.extend_from_slice(DUPLICATE)?,
            Refusal::Waiting => out.extend_from_slice(WAITING)?,
            Refusal::Parse { fault } => tell_fault(out, fault)?,
            Refusal::TooLarge => out.extend_from_slice(TOO_LARGE)?,
        }
        Ok(())
    }
}

fn tell_fault(out: &mut Vec<u8>, fault: &Fault) -> Result<(), Memory>
    ensures { OnOk result (out.new.items ≡ out.old.items ++ spec.fault_text fault.now) }
{
    out.extend_from_slice(PARSE_ERROR)?;
    out.extend_from_slice(fault.reason.text())?;
    out.extend_from_slice(AT_LINE)?;
    append_number(out, u64::from(fault.line))?;
    out.extend_from_slice(NEWLINE)?;
    Ok(())
}
