ghost use Rattle.std.specs.Prelude.{◌≡◌, ◌∷◌, ◌++◌, Some, IfOk, MatchOption};
ghost use Rattle.std.specs.Option.{option_copied};
ghost use Rattle.uci_text.specs.declared.byte_class.ByteClass.TheVariants.{NotZero};
ghost use Rattle.uci_text.specs.ByteClass.{AllIn};
ghost use Rattle.uci_tree.specs.Split.{HasNone};
ghost use Rattle.uci_delta.specs.Deltas.{Gives};
ghost use Rattle.uci_delta.specs.Print.{equals_sign, kind_of, value_of};

use crate::head::{Kind, read_head};
use crate::word::read_word;
use crate::{Change, Delta};
use plane_io::{Memory, Text};
use std::alloc::Global;
use uci_text::ByteClass;
use uci_tree::cut_first;

/// The delta of the package of this name that the part is, and `None` where it is none.
pub fn read_delta(alloc: Global, package: &[u8], part: &[u8]) -> Result<Option<Delta>, Memory>
    ensures { IfOk result (Gives «package».now part.now) }
{
    if !ByteClass::NotZero.contains_all(part) {
        return Ok(None);
    }
    let Some((head, word)) = cut_first(part, b'=') else {
        return read_removal(alloc, package, part);
    };
    read_valued(alloc, package, head, word)
}

/// Reads a part without `=`.
fn read_removal(alloc: Global, package: &[u8], part: &[u8]) -> Result<Option<Delta>, Memory>
    requires clean { AllIn NotZero part.now }
    requires bare { HasNone equals_sign part.now }
    ensures { IfOk result (Gives «package».now part.now) }
{
    let Some((kind, section, option)) = read_head(package, part) else {
        return Ok(None);
    };
    let Kind::Remove = kind else {
        return Ok(None);
    };
    Ok(Some(Delta {
        package: Text::from_bytes(alloc, package)?,
        section: Text::from_bytes(alloc, section)?,
        option: copy_option(alloc, option)?,
        change: Change::Remove,
    }))
}

/// Reads a part that has this in front of its first `=`, and this behind it.
fn read_valued(
    alloc: Global,
    package: &[u8],
    head: &[u8],
    word: &[u8],
) -> Result<Option<Delta>, Memory>
    requires clean { AllIn NotZero (head.now ++ equals_sign ∷ word.now) }
    requires first { HasNone equals_sign head.now }
    ensures { IfOk result (Gives «package».now (head.now ++ equals_sign ∷ word.now)) }
{
    let Some((kind, section, option)) = read_head(package, head) else {
        return Ok(None);
    };
    let Some(value) = read_word(alloc, word)? else {
        return Ok(None);
    };
    let Some(change) = change_of(kind, value) else {
        return Ok(None);
    };
    Ok(Some(Delta {
        package: Text::from_bytes(alloc, package)?,
        section: Text::from_bytes(alloc, section)?,
        option: copy_option(alloc, option)?,
        change,
    }))
}

/// The change of this kind with this value, which a removal has not.
fn change_of(kind: Kind, value: Text) -> Option<Change>
    ensures { MatchOption result (kind ≡ Kind.Remove) (λ change.
        (kind_of change ≡ kind) × (value_of change ≡ Some value)) }
{
    match kind {
        Kind::Set => Some(Change::Set(value)),
        Kind::Remove => None,
        Kind::Add => Some(Change::Add(value)),
        Kind::Rename => Some(Change::Rename(value)),
        Kind::Reorder => Some(Change::Reorder(value)),
        Kind::ListAdd => Some(Change::ListAdd(value)),
        Kind::ListDel => Some(Change::ListDel(value)),
    }
}

fn copy_option(alloc: Global, name: Option<&[u8]>) -> Result<Option<Text>, Memory>
    ensures { IfOk result (λ copy. copy ≡ option_copied name.entry) }
{
    match name {
        Some(bytes) => Ok(Some(Text::from_bytes(alloc, bytes)?)),
        None => Ok(None),
    }
}
