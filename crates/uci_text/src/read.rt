ghost use Rattle.std.specs.Prelude.{◌≡◌, ◌≢◌, ◌<◌, ◌-◌, ◌^◌, List, length, IfOk, Err};
ghost use Rattle.uci_text.specs.declared.line.Line.{Line};
ghost use Rattle.uci_text.specs.declared.text_error.TextError.{TextError};
ghost use Rattle.uci_text.specs.Text.{Spells};
ghost use Rattle.uci_text.specs.FirstFault.{IsFirstFault};

use crate::extent::{read_extent, read_gap};
use crate::{Line, TextError};
use plane_io::Items;
use std::alloc::Global;

/// Reads the commands of a text as lines of words, in their order.
///
/// A newline or `;` ends a command, and a command without words is passed over. Words have white
/// space between them: spaces, tabs, CR, VT and FF. A word is one or more pieces side by side. A
/// piece is a run of bytes other than white space, newlines, `'` `"` `#` `;` `\` and the zero byte;
/// or bytes other than `'` and the zero byte between single quotes; or bytes between double quotes,
/// where a backslash gives the byte behind it; or a backslash with a byte, which it gives. A
/// backslash with a newline gives nothing, within double quotes and outside. `#` outside quotes,
/// also within a word, begins a comment that ends before the next newline. The number of a line is
/// that of the command's first word.
///
/// Each byte is passed a fixed number of times: as a part of a word or a gap, in search of a zero
/// byte, and in counting newlines. Beside the words there is only the one that is being read.
///
/// # Errors
///
/// The first fault of the text, that is, of the first command that has one, a comment being part of
/// the command before it. In a command a zero byte goes first: `BadWord` with its line. Then
/// `OpenQuote` with the line of a quote that is not closed, or `BadWord` with the line of a
/// backslash outside quotes and comments that is the last byte of the text. `Memory` where there
/// was not enough memory.
pub fn read_lines(alloc: Global, text: &[u8]) -> Result<Items<Line>, TextError>
    requires { length text.now < 2 ^ 32 - 1 }
    ensures found { IfOk result (λ lines. Spells text.now lines) }
    ensures only { IfOk result (λ lines.
        (others : List Line) → Spells text.now others → others ≡ lines) }
    ensures refused { (error : TextError) → result ≡ Err error → error ≢ TextError.Memory →
        IsFirstFault text.now error }
{
    let mut lines = Items::new(alloc);
    let (mut rest, mut number) = read_gap(text)?;
    while !rest.is_empty() {
        let (line, behind, next) = read_extent(alloc, number, rest)?;
        lines.push(line)?;
        rest = behind;
        number = next;
    }
    Ok(lines)
}
