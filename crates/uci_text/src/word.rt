ghost use Rattle.std.specs.Prelude.{◌≡◌, ◌≢◌, IfOk, Err};
ghost use Rattle.uci_text.specs.declared.stop.Stop.{Stop};
ghost use Rattle.uci_text.specs.ByteClass as class;
ghost use Rattle.uci_text.specs.Found.{BeginsOutside, TakesWord, IsOpenWord};

use crate::byte_class::ends_word;
use crate::piece::read_piece;
use crate::stop::Stop;
use plane_io::Text;
use std::alloc::Global;

/// The value of the word in front, and what is behind that word.
pub fn read_word(alloc: Global, bytes: &[u8]) -> Result<(Text, &[u8]), Stop>
    requires { BeginsOutside class.ends_word bytes.now }
    ensures found { IfOk result (λ split. TakesWord bytes.now split.0 split.1.now) }
    ensures stopped { (stop : Stop) → result ≡ Err stop → stop ≢ Stop.Memory →
        IsOpenWord bytes.now stop }
{
    let mut value = Vec::new(alloc);
    let mut rest = bytes;
    loop {
        rest = read_piece(&mut value, rest)?;
        if ends_word(rest) {
            return Ok((Text::from_vec(value), rest));
        }
    }
}
