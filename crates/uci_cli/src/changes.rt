ghost use Rattle.std.specs.Prelude.{◌≡◌, ◌++◌, OnOk};
ghost use Rattle.uci_cli.specs.Changes as spec;

use plane_io::Memory;
use uci_delta::{Delta, print_change};

/// Appends what `changes` prints of staged changes: a line for each.
///
/// # Errors
///
/// Want of memory.
pub fn print_changes(out: &mut Vec<u8>, deltas: &[Delta]) -> Result<(), Memory>
    requires { spec.HaveShape deltas.now }
    ensures { OnOk result (out.new.items ≡ out.old.items ++ spec.change_lines deltas.now) }
{
    for delta in deltas {
        print_change(out, delta)?;
        out.push(b'\n')?;
    }
    Ok(())
}
