ghost use Rattle.std.specs.Prelude.{OnOk};
ghost use Rattle.uci_tree.specs.Index.{HasNoted};

use kern_model::DevName;
use plane_io::{Memory, Text};
use std::collections::BTreeMap;

/// Notes the place of a text that has none.
pub fn note_text(
    places: &mut BTreeMap<Text, usize>,
    text: &Text,
    place: usize,
) -> Result<(), Memory>
    ensures { OnOk result (HasNoted places.old places.new text.now place) }
{
    if places.contains_key(text) {
        return Ok(());
    }
    let _none = places.insert(text.copy()?, place)?;
    Ok(())
}

/// Notes the place of a name that has none.
pub fn note_name(
    places: &mut BTreeMap<DevName, usize>,
    name: &DevName,
    place: usize,
) -> Result<(), Memory>
    ensures { OnOk result (HasNoted places.old places.new name.now place) }
{
    if places.contains_key(name) {
        return Ok(());
    }
    let _none = places.insert(*name, place)?;
    Ok(())
}
