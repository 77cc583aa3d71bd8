ghost use Rattle.std.specs.Prelude.{◌≡◌, ◌++◌, OnOk, decimal};
ghost use Rattle.script_lines.specs.ErrorLine as spec;

use crate::LineError;
use itoa::Buffer;
use plane_io::Memory;

/// Appends the line that tells of the error: `error`, its number and its text, with a newline.
///
/// # Errors
///
/// Want of memory. Then a part of the line may stand there.
pub fn append_error_line(error: &LineError, out: &mut Vec<u8>) -> Result<(), Memory>
    ensures { OnOk result (out.new.items ≡ out.old.items ++ spec.error_line error.now) }
{
    out.extend_from_slice(b"error ")?;
    append_number(u64::from(error.number()), out)?;
    out.push(b' ')?;
    out.extend_from_slice(error.words())?;
    append_arguments(error, out)?;
    out.push(b'\n')?;
    Ok(())
}

// Appends the numbers that the text of the error ends in.
fn append_arguments(error: &LineError, out: &mut Vec<u8>) -> Result<(), Memory>
    ensures { OnOk result (out.new.items ≡ out.old.items ++ spec.arguments_of error.now) }
{
    match error {
        LineError::Stale { given, current } => {
            append_argument(*given, out)?;
            append_argument(*current, out)
        }
        LineError::WrongPorts { wanted } => append_argument(*wanted, out),
        LineError::Limit { number } => append_argument(*number, out),
        LineError::BadLine { line } => append_argument(u64::from(*line), out),
        _ => Ok(()),
    }
}

fn append_argument(number: u64, out: &mut Vec<u8>) -> Result<(), Memory>
    ensures { OnOk result (out.new.items ≡ out.old.items ++ spec.argument number) }
{
    out.push(b' ')?;
    append_number(number, out)
}

fn append_number(number: u64, out: &mut Vec<u8>) -> Result<(), Memory>
    ensures { OnOk result (out.new.items ≡ out.old.items ++ decimal number) }
{
    let mut digits = Buffer::new();
    out.extend_from_slice(digits.format(number).as_bytes())?;
    Ok(())
}
