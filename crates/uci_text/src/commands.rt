ghost use Rattle.std.specs.Prelude.{◌≡◌, ◌≢◌, ◌<◌, ◌-◌, ◌^◌, List, length, IfOk, Err};
ghost use Rattle.uci_text.specs.declared.cmd.Cmd.{Cmd};
ghost use Rattle.uci_text.specs.declared.text_error.TextError.{TextError};
ghost use Rattle.uci_text.specs.Commands.{SpellsCommands, IsFirstCommandFault};

use crate::extent::{read_extent, read_gap};
use crate::table::command_of;
use crate::{Cmd, TextError};
use plane_io::Items;
use std::alloc::Global;

/// Reads the commands of a text, in their order.
///
/// The lines are those of [`crate::read_lines`]. A command is `package` or `p` with a name;
/// `config` or `c` with a type and perhaps the name of a section; `option` or `o`, or `list` or
/// `l`, with a name and perhaps a value. A value that is missing is empty, and an empty name of a
/// section is none. Names of sections and options are one or more ASCII letters, digits and `_`,
/// those of packages may also hold `-`, and types are one or more bytes from 33 to 126.
///
/// Of the words there are only those of one command at a time beside the commands, which take them
/// over without a copy.
///
/// # Errors
///
/// The first fault of the text, that is, of the first command that has one. In a command those of
/// [`crate::read_lines`] go first, and then, with the line of its first word: `UnknownCommand` for
/// a first word that is none of these, `ArgumentCount` for a wrong number of arguments, `BadName`
/// for a name or a type that is not of its form. `Memory` where there was not enough memory.
pub fn read_commands(alloc: Global, text: &[u8]) -> Result<Items<Cmd>, TextError>
    requires { length text.now < 2 ^ 32 - 1 }
    ensures found { IfOk result (λ commands. SpellsCommands text.now commands) }
    ensures only { IfOk result (λ commands.
        (others : List Cmd) → SpellsCommands text.now others → others ≡ commands) }
    ensures refused { (error : TextError) → result ≡ Err error → error ≢ TextError.Memory →
        IsFirstCommandFault text.now error }
{
    let mut commands = Items::new(alloc);
    let (mut rest, mut number) = read_gap(text)?;
    while !rest.is_empty() {
        let (line, behind, next) = read_extent(alloc, number, rest)?;
        let command = command_of(alloc, line)?;
        commands.push(command)?;
        rest = behind;
        number = next;
    }
    Ok(commands)
}
