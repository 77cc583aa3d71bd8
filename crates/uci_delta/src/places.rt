ghost use Rattle.std.specs.Prelude.{◌≡◌, List, length, IfOk, IfSome, OnOk, Ok};
ghost use Rattle.uci_tree.specs.declared.package.Section.{Section};
ghost use Rattle.uci_tree.specs.Find.{named_place as place_of_name};
ghost use Rattle.uci_tree.specs.Index.{HasPlaces, HasNoted};
ghost use Rattle.uci_delta.specs.Applied.{changed};
ghost use Rattle.uci_delta.specs.Placed.{ArePlaced, IsNotedIn};

use crate::{Change, Delta};
use plane_io::{Memory, Text};
use std::alloc::Global;
use std::collections::BTreeMap;
use uci_tree::{Section, named_place};

/// The place of the first section of each name.
pub fn places_of(alloc: Global, sections: &[Section]) -> Result<BTreeMap<Text, usize>, Memory>
    ensures { IfOk result (λ places. HasPlaces places sections.now) }
{
    let mut places = BTreeMap::new(alloc);
    for (place, section) in sections.iter().enumerate() {
        note(&mut places, &section.name, place)?;
    }
    Ok(places)
}

/// Notes the place of a name that has none.
pub fn note(places: &mut BTreeMap<Text, usize>, name: &Text, place: usize) -> Result<(), Memory>
    ensures { OnOk result (HasNoted places.old places.new name.now place) }
{
    if places.contains_key(name) {
        return Ok(());
    }
    let _none = places.insert(name.copy()?, place)?;
    Ok(())
}

/// The place of the first section of this name, by the places of all names where they are known.
pub fn place_by(
    places: &Option<BTreeMap<Text, usize>>,
    sections: &[Section],
    name: &Text,
) -> Option<usize>
    requires { ArePlaced places.now sections.now }
    ensures { result ≡ place_of_name sections.now name.now }
{
    match places {
        Some(places) => places.get(name).copied(),
        None => named_place(sections, name.as_bytes()),
    }
}

/// The places behind a change of this delta to so many sections, where they are still known.
pub fn followed(
    places: Option<BTreeMap<Text, usize>>,
    delta: &Delta,
    before: usize,
) -> Option<BTreeMap<Text, usize>>
    ensures { (old new : List Section) → ArePlaced places old →
        changed delta.now.section delta.now.option delta.now.change old ≡ Ok new →
        before ≡ length old → ArePlaced result new }
{
    match (&delta.option, &delta.change) {
        (Some(_), _) => places,
        (None, Change::Set(_)) => noted(places, &delta.section, before),
        (None, Change::Add(_)) => noted(places, &delta.section, before),
        (None, _) => None,
    }
}

/// The places with that of a name that has none.
fn noted(
    places: Option<BTreeMap<Text, usize>>,
    name: &Text,
    place: usize,
) -> Option<BTreeMap<Text, usize>>
    ensures { IfSome result (λ new. IsNotedIn places new name.now place) }
{
    let Some(mut places) = places else {
        return None;
    };
    match note(&mut places, name, place) {
        Ok(()) => Some(places),
        Err(_) => None,
    }
}
