ghost use Rattle.std.specs.Prelude.{◌≡◌, ◌++◌, IfOk, OnOk};
ghost use Rattle.std.specs.Option.{option_copied};
ghost use Rattle.uci_delta.specs.Print.{value_of as value_in};
ghost use Rattle.rpc_rules.specs.Changes as spec;

use crate::told::{named, text_array};
use blob_codec::{Attr, Blob};
use plane_io::{Memory, Text};
use sqlite_items::Items;
use std::alloc::Global;
use uci_delta::{Change, Delta};

/// The packages with what is staged of them.
pub fn changes_told(alloc: Global, packages: Items<Attr>) -> Result<Items<Attr>, Memory>
    ensures { IfOk result (λ told. told ≡ spec.changes_told packages) }
{
    let mut told = Items::new(alloc);
    told.push(named(alloc, b"changes", Blob::Table(packages))?)?;
    Ok(told)
}

/// A package with what is staged of it.
pub fn package_changes(alloc: Global, name: &[u8], deltas: &[Delta]) -> Result<Attr, Memory>
    ensures { IfOk result (λ attr. attr ≡ spec.package_changes name.now deltas.now) }
{
    let mut items = Items::new(alloc);
    for delta in deltas {
        items.push(delta_item(alloc, delta)?)?;
    }
    named(alloc, name, Blob::Array(items))
}

fn delta_item(alloc: Global, delta: &Delta) -> Result<Attr, Memory>
    ensures { IfOk result (λ attr. attr ≡ spec.delta_item delta.now) }
{
    let texts = delta_texts(alloc, delta)?;
    named(alloc, b"", text_array(alloc, texts.as_slice())?)
}

/// The word, the section, the option where there is one, and the value where there is one.
fn delta_texts(alloc: Global, delta: &Delta) -> Result<Vec<Text>, Memory>
    ensures { IfOk result (λ texts. texts.items ≡ spec.delta_texts delta.now) }
{
    let mut texts = Vec::new(alloc);
    texts.push(Text::from_bytes(alloc, word_of(&delta.change))?)?;
    texts.push(delta.section.copy()?)?;
    add_text(&mut texts, delta.option.as_ref())?;
    add_text(&mut texts, value_of(&delta.change))?;
    Ok(texts)
}

/// Adds the text, where there is one.
fn add_text(texts: &mut Vec<Text>, text: Option<&Text>) -> Result<(), Memory>
    ensures { OnOk result (texts.new.items
        ≡ texts.old.items ++ spec.text_or_none (option_copied text.entry)) }
{
    let Some(text) = text else {
        return Ok(());
    };
    texts.push(text.copy()?)?;
    Ok(())
}

fn word_of(change: &Change) -> &'static [u8]
    ensures { result.now ≡ spec.word_of change.now }
{
    match change {
        Change::Set(_) => b"set",
        Change::Remove => b"remove",
        Change::Add(_) => b"add",
        Change::Rename(_) => b"rename",
        Change::Reorder(_) => b"order",
        Change::ListAdd(_) => b"list-add",
        Change::ListDel(_) => b"list-del",
    }
}

fn value_of(change: &Change) -> Option<&Text>
    ensures { option_copied result ≡ value_in change.now }
{
    match change {
        Change::Remove => None,
        Change::Set(value) | Change::Add(value) | Change::Rename(value) => Some(value),
        Change::Reorder(value) | Change::ListAdd(value) | Change::ListDel(value) => Some(value),
    }
}
