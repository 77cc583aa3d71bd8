ghost use Rattle.std.specs.Prelude.{◌≡◌, ◌≢◌, ◌++◌, ◌∷◌, IfOk, OnOk};
ghost use Rattle.blob_json.specs.JsonError.{number_of, inside, escaped, escaped_byte};
ghost use Rattle.blob_json.specs.declared.json_error.JsonError.TheVariants.{Memory as NoMemory};

use plane_io::{Memory, Text};
use std::alloc::{AllocError, AllocFailed, Global};
use thiserror::Error;

/// Why a JSON value has no attributes: its first fault, or want of memory. A path is a JSON pointer
/// (RFC 6901) to the value with the fault.
#[derive(Debug, Drop, Error)]
pub enum JsonError {
    /// The number has a fraction or an exponent, is `-0`, or is beyond 64 bits.
    #[error("a number is not written whole, or is beyond 64 bits")]
    Fraction { path: Text },
    /// The whole number is above 2^63 - 1.
    #[error("a whole number is above 9223372036854775807")]
    Wide { path: Text },
    /// The array or object stands within 32 others; the object at the top is not counted.
    #[error("a value nests too deep")]
    Deep { path: Text },
    /// The value at the top is no object.
    #[error("the value is no object")]
    NotTable,
    /// There was not enough memory.
    #[error("out of memory")]
    Memory,
}

impl JsonError {
    /// The number of the kind of error: 46 for `Fraction`, 47 for `Wide`, 45 for `Deep`, 48 for
    /// `NotTable`, 8 for `Memory`.
    pub fn number(&self) -> u8
        ensures { result ≡ number_of self.now }
    {
        match self {
            JsonError::Fraction { .. } => 46,
            JsonError::Wide { .. } => 47,
            JsonError::Deep { .. } => 45,
            JsonError::NotTable => 48,
            JsonError::Memory => 8,
        }
    }

    /// The same fault, seen from a value of which the faulty one is this part.
    pub(crate) fn inside(self, alloc: Global, part: &[u8]) -> JsonError
        ensures { result ≢ NoMemory → result ≡ inside part.now self }
    {
        let longer = match &self {
            JsonError::Fraction { path } | JsonError::Wide { path } | JsonError::Deep { path } => {
                longer_path(alloc, part, path.as_bytes())
            }
            JsonError::NotTable | JsonError::Memory => return self,
        };
        let Ok(path) = longer else {
            return JsonError::Memory;
        };
        match self {
            JsonError::Fraction { .. } => JsonError::Fraction { path },
            JsonError::Wide { .. } => JsonError::Wide { path },
            _ => JsonError::Deep { path },
        }
    }
}

fn longer_path(alloc: Global, part: &[u8], path: &[u8]) -> Result<Text, Memory>
    ensures { IfOk result (λ longer. longer ≡ 47 ∷ part.now ++ path.now) }
{
    let mut longer = Vec::new(alloc);
    longer.push(b'/')?;
    longer.extend_from_slice(part)?;
    longer.extend_from_slice(path)?;
    Ok(Text::from_vec(longer))
}

/// A name as a part of a JSON pointer.
pub(crate) fn escape(alloc: Global, name: &[u8]) -> Result<Text, Memory>
    ensures { IfOk result (λ part. part ≡ escaped name.now) }
{
    let mut part = Vec::new(alloc);
    for byte in name {
        push_escaped(&mut part, *byte)?;
    }
    Ok(Text::from_vec(part))
}

fn push_escaped(part: &mut Vec<u8>, byte: u8) -> Result<(), AllocError>
    ensures { OnOk result (part.new.items ≡ part.old.items ++ escaped_byte byte) }
{
    match byte {
        b'~' => part.extend_from_slice(b"~0"),
        b'/' => part.extend_from_slice(b"~1"),
        other => part.extend_from_slice(&[other]),
    }
}

impl From<Memory> for JsonError {
    ghost from_gives = { λ _ e. e ≡ NoMemory };

    fn from(_error: Memory) -> JsonError {
        JsonError::Memory
    }
}

impl From<AllocError> for JsonError {
    ghost from_gives = { λ _ e. e ≡ NoMemory };

    fn from(_error: AllocError) -> JsonError {
        JsonError::Memory
    }
}

impl<T: Drop> From<AllocFailed<T>> for JsonError {
    ghost from_gives = { λ _ e. e ≡ NoMemory };

    fn from(_error: AllocFailed<T>) -> JsonError {
        JsonError::Memory
    }
}
