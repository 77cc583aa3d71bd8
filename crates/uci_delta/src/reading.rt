ghost use Rattle.std.specs.Prelude.{◌≡◌, [], ◌∷◌, List, IfOk, OnOk, MatchOption};
ghost use Rattle.uci_delta.specs.declared.delta.Delta.{Delta};
ghost use Rattle.uci_delta.specs.Deltas.{AreDeltas, GivesTo};
ghost use Rattle.uci_delta.specs.Parts.{AreParts, IsCut};

use crate::Delta;
use crate::line::read_delta;
use crate::quoting::Quoting;
use plane_io::{Items, Memory};
use std::alloc::Global;

/// Reads the deltas of the package of this name from the text of a delta file.
///
/// The text is cut at the newlines that stand in no quotes and behind no backslash; a quote that
/// does not end reaches to the end of the text, and there are no comments. A part is a delta where
/// it is one as [`crate::print_delta`] writes it, but that its value may be any word of UCI text.
/// Any other part gives nothing, as does a delta of another package.
///
/// # Errors
///
/// `Memory` where there was not enough memory.
pub fn read_deltas(alloc: Global, package: &[u8], text: &[u8]) -> Result<Items<Delta>, Memory>
    ensures found { IfOk result (λ deltas. AreDeltas «package».now text.now deltas) }
    ensures only { IfOk result (λ deltas.
        (others : List Delta) → AreDeltas «package».now text.now others → others ≡ deltas) }
{
    let mut deltas = Items::new(alloc);
    let mut rest = text;
    while let Some((part, behind)) = cut(rest) {
        push_delta(alloc, &mut deltas, package, part)?;
        rest = behind;
    }
    push_delta(alloc, &mut deltas, package, rest)?;
    Ok(deltas)
}

/// Cuts the bytes at the first newline that stands in no piece of a word.
fn cut(bytes: &[u8]) -> Option<(&[u8], &[u8])>
    ensures { MatchOption result (AreParts bytes.now (bytes.now ∷ []))
        (λ cut. IsCut bytes.now cut.0.now cut.1.now) }
{
    let mut quoting = Quoting::Bare;
    for (at, byte) in bytes.iter().enumerate() {
        if quoting.is_cut(*byte) {
            return Some((&bytes[..at], &bytes[at + 1..]));
        }
        quoting = quoting.behind(*byte);
    }
    None
}

fn push_delta(
    alloc: Global,
    deltas: &mut Items<Delta>,
    package: &[u8],
    part: &[u8],
) -> Result<(), Memory>
    ensures { OnOk result (GivesTo «package».now part.now deltas.old deltas.new) }
{
    if let Some(delta) = read_delta(alloc, package, part)? {
        deltas.push(delta)?;
    }
    Ok(())
}
