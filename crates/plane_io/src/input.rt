ghost use Rattle.std.specs.Prelude.{◌≡◌, ◌≤◌, ℕ, length, Err, IfOk, OnOk};
ghost use Rattle.plane_words.specs.Causes.{Rose};
ghost use Rattle.plane_io.specs.Source.{IsAllThatWasLeft, HadMoreThan};
ghost use Rattle.plane_io.specs.InputError.{number_of};
ghost use Rattle.plane_io.specs.declared.input.InputError.TheVariants.{Memory as NoMemory};

use crate::Source;
use std::alloc::{AllocError, Global};
use thiserror::Error;

/// The most bytes that a text of configuration has: a package file, or the input of a command that
/// reads one.
pub const INPUT_LIMIT: u64 = 1_048_576;

/// How many bytes are asked for at once.
const PIECE: usize = 8192;

/// Why an input was not read.
#[derive(Clone, Copy, Debug, Error)]
pub enum InputError {
    /// The source failed.
    #[error("read failed")]
    ReadFailed,
    /// The source had more than `limit` bytes.
    #[error("limit {limit}")]
    TooLong { limit: u64 },
    /// There was not enough memory.
    #[error("out of memory")]
    Memory,
}

impl InputError {
    /// The number of the error: 3 for `ReadFailed`, 10 for `TooLong`, 8 for `Memory`. It is the
    /// exit status of a run that ends for it.
    pub fn number(&self) -> u8
        ensures { result ≡ number_of self.now }
    {
        match self {
            InputError::ReadFailed => 3,
            InputError::TooLong { .. } => 10,
            InputError::Memory => 8,
        }
    }
}

impl From<AllocError> for InputError {
    ghost from_gives = { λ _ e. e ≡ NoMemory };

    fn from(_error: AllocError) -> InputError {
        InputError::Memory
    }
}

/// Reads a source to its end.
///
/// # Errors
///
/// `ReadFailed` where a call of the source failed, and `TooLong` exactly where more than `limit`
/// bytes were there.
pub fn read_to_end<S: Source>(
    alloc: Global,
    input: &mut S,
    limit: u64,
) -> Result<Vec<u8>, InputError>
    ensures read { IfOk result (λ all.
        IsAllThatWasLeft (S.left input.old) (S.left input.new) all.items) }
    ensures within { IfOk result (λ all. length all.items ≤ limit) }
    ensures too_long { (passed : ℕ) → result ≡ Err (InputError.TooLong passed) →
        (passed ≡ limit) × HadMoreThan limit (S.left input.old) }
    ensures read_failed { result ≡ Err InputError.ReadFailed →
        Rose (S.faults input.old) (S.faults input.new) }
    ensures later { S.faults input.old ≤ S.faults input.new }
{
    let mut all = Vec::new(alloc);
    let mut piece = [0u8; PIECE];
    loop {
        let Ok(count) = input.read(&mut piece) else {
            return Err(InputError::ReadFailed);
        };
        if count == 0 {
            return Ok(all);
        }
        all.extend_from_slice(&piece[..count])?;
        if all.len() as u64 > limit {
            return Err(InputError::TooLong { limit });
        }
    }
}
