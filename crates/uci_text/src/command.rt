ghost use Rattle.std.specs.Prelude.{◌≡◌, ◌≢◌, IfOk, Err};
ghost use Rattle.uci_text.specs.declared.stop.Stop.{Stop};
ghost use Rattle.uci_text.specs.ByteClass as class;
ghost use Rattle.uci_text.specs.Found.{BeginsOutside, TakesCommand, HasNoEnd};

use crate::byte_class::{ByteClass, ends_command};
use crate::stop::Stop;
use crate::word::read_word;
use plane_io::{Items, Text};
use std::alloc::Global;

/// The words of the command in front, and what is behind that command.
pub fn read_command(alloc: Global, bytes: &[u8]) -> Result<(Items<Text>, &[u8]), Stop>
    requires { BeginsOutside class.ends_word bytes.now }
    ensures found { IfOk result (λ split. TakesCommand bytes.now split.0 split.1.now) }
    ensures stopped { (stop : Stop) → result ≡ Err stop → stop ≢ Stop.Memory →
        HasNoEnd bytes.now stop }
{
    let mut words = Items::new(alloc);
    let mut rest = bytes;
    loop {
        let (word, behind) = read_word(alloc, rest)?;
        words.push(word)?;
        let (_, next) = ByteClass::Space.split(behind);
        if ends_command(next) {
            return Ok((words, next));
        }
        rest = next;
    }
}
