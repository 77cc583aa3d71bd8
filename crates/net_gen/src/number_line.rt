ghost use Rattle.std.specs.Prelude.{◌≤◌, length, OnOk, OnErr};
ghost use Rattle.plane_words.specs.Causes.{HasCause};
ghost use Rattle.plane_words.specs.Growth.{Grows, GrowsByFront};
ghost use Rattle.net_gen.specs.Steps.{number_line};

use itoa::Buffer;
use plane_io::{Failed, Sink, append_text};

/// Writes a line with a word and a number, in one piece.
pub(crate) fn write_number<O: Sink>(word: &[u8], number: u64, out: &mut O) -> Result<(), Failed>
    requires short { length word.now ≤ 8 }
    ensures ok { OnOk result
        (Grows (O.held out.old) (O.held out.new) (number_line word.now number)) }
    ensures err { OnErr result
        (GrowsByFront (O.held out.old) (O.held out.new) (number_line word.now number)) }
    ensures cause { HasCause (O.faults out.old) (O.faults out.new) result }
{
    let mut digits = Buffer::new();
    let mut line = [0u8; 40];
    let end = append_text(&mut line, 0, word);
    let end = append_text(&mut line, end, b" ");
    let end = append_text(&mut line, end, digits.format(number).as_bytes());
    let end = append_text(&mut line, end, b"\n");
    out.write(&line[..end])
}
