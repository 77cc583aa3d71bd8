ghost use Rattle.std.specs.Prelude.{◌≡◌, ℕ, List, OnOk};
ghost use Rattle.uci_tree.specs.Index.{HasNoted};
ghost use Rattle.net_interfaces.specs.Names as spec;

use net_rows::value_of;
use plane_io::{Memory, Text};
use std::collections::BTreeMap;
use uci_tree::{Opt, Value};

/// Notes the place of a name that has none.
pub fn note(places: &mut BTreeMap<Text, usize>, name: &Text, place: usize) -> Result<(), Memory>
    ensures { OnOk result (HasNoted places.old places.new name.now place) }
{
    if places.contains_key(name) {
        return Ok(());
    }
    let _none = places.insert(name.copy()?, place)?;
    Ok(())
}

/// The place of the name that an option gives, where `places` has the places of names.
pub fn place_given(places: &BTreeMap<Text, usize>, options: &[Opt], option: &[u8]) -> Option<usize>
    ensures { (names : List (List ℕ)) → spec.HasPlaces places.now names →
        result ≡ spec.place_given names option.now options.now }
{
    match value_of(options, option) {
        Some(Value::One(name)) => places.get(name).copied(),
        Some(Value::Many(_)) => None,
        None => None,
    }
}
