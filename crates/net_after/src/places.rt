ghost use Rattle.std.specs.Prelude.{map, IfOk, OnOk};
ghost use Rattle.uci_tree.specs.Index.{HasNoted};
ghost use Rattle.net_view.specs.Places.{HasPlaces};

use net_rows::RadioRow;
use net_rules::{InterfaceRequest, OpenInterface, OpenRadio, RadioRequest};
use plane_io::{Memory, Text};
use std::alloc::Global;
use std::collections::BTreeMap;

/// The places of radios by name; of one name the first.
pub fn radio_places(alloc: Global, radios: &[RadioRow]) -> Result<BTreeMap<Text, usize>, Memory>
    ensures { IfOk result (λ places. HasPlaces places (map (λ row. row.name) radios.now)) }
{
    let mut places = BTreeMap::new(alloc);
    for (place, radio) in radios.iter().enumerate() {
        note_text(&mut places, &radio.name, place)?;
    }
    Ok(places)
}

/// The places of needs by name; of one name the first.
pub fn interface_need_places(
    alloc: Global,
    needs: &[InterfaceRequest],
) -> Result<BTreeMap<Text, usize>, Memory>
    ensures { IfOk result (λ places. HasPlaces places (map (λ request. request.name) needs.now)) }
{
    let mut places = BTreeMap::new(alloc);
    for (place, request) in needs.iter().enumerate() {
        note_text(&mut places, &request.name, place)?;
    }
    Ok(places)
}

/// The places of needs by name; of one name the first.
pub fn radio_need_places(
    alloc: Global,
    needs: &[RadioRequest],
) -> Result<BTreeMap<Text, usize>, Memory>
    ensures { IfOk result (λ places. HasPlaces places (map (λ request. request.name) needs.now)) }
{
    let mut places = BTreeMap::new(alloc);
    for (place, request) in needs.iter().enumerate() {
        note_text(&mut places, &request.name, place)?;
    }
    Ok(places)
}

/// The places of open requests by name; of one name the first.
pub fn open_interface_places(
    alloc: Global,
    current: &[OpenInterface],
) -> Result<BTreeMap<Text, usize>, Memory>
    ensures { IfOk result (λ places. HasPlaces places (map (λ o. o.request.name) current.now)) }
{
    let mut places = BTreeMap::new(alloc);
    for (place, asked) in current.iter().enumerate() {
        note_text(&mut places, &asked.request.name, place)?;
    }
    Ok(places)
}

/// The places of open requests by name; of one name the first.
pub fn open_radio_places(
    alloc: Global,
    current: &[OpenRadio],
) -> Result<BTreeMap<Text, usize>, Memory>
    ensures { IfOk result (λ places. HasPlaces places (map (λ o. o.request.name) current.now)) }
{
    let mut places = BTreeMap::new(alloc);
    for (place, asked) in current.iter().enumerate() {
        note_text(&mut places, &asked.request.name, place)?;
    }
    Ok(places)
}

// Notes the place of a text that has none.
fn note_text(places: &mut BTreeMap<Text, usize>, text: &Text, place: usize) -> Result<(), Memory>
    ensures { OnOk result (HasNoted places.old places.new text.now place) }
{
    if places.contains_key(text) {
        return Ok(());
    }
    let _none = places.insert(text.copy()?, place)?;
    Ok(())
}
