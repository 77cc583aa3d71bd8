ghost use Rattle.std.specs.Prelude.{◌≡◌, ℕ, List, IfOk, IfSome, IfNone};
ghost use Rattle.uci_text.specs.Word.{SpellsWord};

use crate::quoting::Quoting;
use plane_io::{Memory, Text};
use std::alloc::Global;

/// The value of the word that the bytes are, and `None` where they are none.
pub fn read_word(alloc: Global, bytes: &[u8]) -> Result<Option<Text>, Memory>
    ensures found { IfOk result (λ found. IfSome found (λ value. SpellsWord bytes.now value)) }
    ensures none { IfOk result (λ found.
        IfNone found ((value : List ℕ) → SpellsWord bytes.now value → ⊥)) }
{
    let mut value = Vec::new(alloc);
    let mut quoting = Quoting::Bare;
    for byte in bytes {
        if quoting.ends(*byte) {
            return Ok(None);
        }
        if quoting.keeps(*byte) {
            value.push(*byte)?;
        }
        quoting = quoting.behind(*byte);
    }
    let Quoting::Bare = quoting else {
        return Ok(None);
    };
    if bytes.is_empty() {
        return Ok(None);
    }
    Ok(Some(Text::from_vec(value)))
}
