ghost use Rattle.std.specs.Prelude.{◌≡◌, List, IfOk, OnOk};
ghost use Rattle.plane_words.specs.InOrder.{put_in};
ghost use Rattle.blob_codec.specs.declared.blob.Attr.{Attr};
ghost use Rattle.rpc_session.specs.Values as spec;
ghost use Rattle.rpc_session.specs.ByName.{IsByName};

use blob_codec::{Attr, Blob};
use plane_io::{Memory, Text};
use sqlite_items::Items;
use std::alloc::Global;
use std::collections::BTreeMap;

/// The values in byte order of their names. Of one name the last counts.
pub(crate) fn in_order(alloc: Global, attrs: Items<Attr>) -> Result<Items<Attr>, Memory>
    ensures { IfOk result (λ ordered. ordered ≡ spec.in_order attrs) }
{
    let by_name = values_by_name(alloc, attrs)?;
    let mut ordered = Items::new(alloc);
    for (name, value) in by_name {
        ordered.push(Attr { name, value })?;
    }
    Ok(ordered)
}

fn values_by_name(alloc: Global, attrs: Items<Attr>) -> Result<BTreeMap<Text, Blob>, Memory>
    ensures { IfOk result (λ by_name. IsByName (spec.in_order attrs) by_name) }
{
    let mut rest = attrs;
    let mut by_name = BTreeMap::new(alloc);
    while let Some(attr) = rest.pop() {
        note_value(&mut by_name, attr)?;
    }
    Ok(by_name)
}

/// Adds a value whose name has none. Those that are there stand behind it.
fn note_value(by_name: &mut BTreeMap<Text, Blob>, attr: Attr) -> Result<(), Memory>
    ensures { (later : List Attr) → IsByName later by_name.old
        → OnOk result (IsByName (put_in spec.by_name attr later) by_name.new) }
{
    if by_name.contains_key(&attr.name) {
        return Ok(());
    }
    let Attr { name, value } = attr;
    let _none = by_name.insert(name, value)?;
    Ok(())
}
