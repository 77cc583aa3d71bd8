//! The script of a run.
ghost use Rattle.std.specs.Prelude.{IfOk, IfErr};
ghost use Rattle.uci_tool.specs.Ends.{source_of};
ghost use Rattle.plane_run.specs.Parts.{ReadRefuses, ReadsFault};
ghost use Rattle.plane_run.specs.Script.{HasRead};

use crate::run_end::RunEnd;
use plane_io::{InputError, Items, Source, read_to_end};
use std::alloc::Global;
use uci_text::{Line, TextError, read_lines};
use uci_tree::TreeError;

/// How many bytes a script may have.
pub const SCRIPT_LIMIT: u64 = 16_777_216;

/// What was read of a script.
#[derive(Drop)]
pub(crate) enum Script {
    /// Its lines.
    Lines { lines: Items<Line> },
    /// It has no lines, since it has a fault, the first on this line.
    Bad { line: u32 },
}

/// Reads the script to its end.
pub(crate) fn read_script<S: Source>(alloc: Global, input: &mut S) -> Result<Script, RunEnd>
    ensures read { IfOk result (HasRead (source_of S.Source input.old input.new)) }
    ensures refused { IfErr result (ReadRefuses (source_of S.Source input.old input.new)) }
{
    let text = match read_to_end(alloc, input, SCRIPT_LIMIT) {
        Ok(text) => text,
        Err(InputError::ReadFailed) => return Err(RunEnd::ReadFailed),
        Err(InputError::TooLong { limit }) => return Err(RunEnd::TooLong { limit }),
        Err(InputError::Memory) => return Err(RunEnd::OutOfMemory),
    };
    match read_lines(alloc, &text) {
        Ok(lines) => Ok(Script::Lines { lines }),
        Err(error) => fault_in(error),
    }
}

// A text that has no lines has a fault, or there was no memory.
fn fault_in(error: TextError) -> Result<Script, RunEnd>
    ensures { ReadsFault error result }
{
    match TreeError::Text(error).fault() {
        Some(fault) => Ok(Script::Bad { line: fault.line }),
        None => Err(RunEnd::OutOfMemory),
    }
}
