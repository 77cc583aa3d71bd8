ghost use Rattle.std.specs.Prelude.{◌≡◌, ◌++◌, [], ◌∷◌, map, if◌then◌else◌, IfOk, OnOk};
ghost use Rattle.std.specs.BTreeMap.{get};
ghost use Rattle.std.specs.Ordering.{nat_cmp};
ghost use Rattle.std.specs.Cmp.Lexicographic.{slice_cmp};
ghost use Rattle.std.specs.List.{filter_map};
ghost use Rattle.net_rules.specs.Firsts.{firsts};
ghost use Rattle.net_rules.specs.Need as spec;
ghost use Rattle.net_rules.specs.Inputs.{facts_of};
ghost use Rattle.net_view.specs.Places.{HasPlaces, is_place};
ghost use Rattle.net_view.specs.Levels.{AreLevelsOf};

use crate::needs::{interface_need, radio_need};
use crate::places::radio_places;
use net_rows::{InterfaceRow, RadioRow};
use net_rules::{Inputs, InterfaceRequest, RadioRequest};
use net_view::{Levels, is_first};
use plane_io::{Items, Memory, Text};
use std::alloc::Global;
use std::collections::BTreeMap;

/// The needs of the radios in file order, of one name that of the first.
pub fn radio_needs(alloc: Global, radios: &[RadioRow]) -> Result<Items<RadioRequest>, Memory>
    ensures { IfOk result (λ needs. needs
        ≡ filter_map spec.radio_need (firsts (λ row. row.name) radios.now)) }
{
    let places = radio_places(alloc, radios)?;
    let mut needs = Items::new(alloc);
    for (place, radio) in radios.iter().enumerate() {
        add_radio_need(alloc, &mut needs, &places, radio, place)?;
    }
    Ok(needs)
}

fn add_radio_need(
    alloc: Global,
    needs: &mut Items<RadioRequest>,
    places: &BTreeMap<Text, usize>,
    radio: &RadioRow,
    place: usize,
) -> Result<(), Memory>
    ensures { OnOk result (needs.new ≡ needs.old ++ filter_map spec.radio_need
        (if is_place place (get (slice_cmp nat_cmp) places.now radio.now.name)
        then radio.now ∷ [] else [])) }
{
    if !is_first(places, &radio.name, place) {
        return Ok(());
    }
    match radio_need(alloc, radio)? {
        Some(need) => needs.push(need),
        None => Ok(()),
    }
}

/// The needs of the interfaces in file order, of one name that of the first.
pub fn interface_needs(
    alloc: Global,
    levels: &Levels,
    inputs: &Inputs,
    interfaces: &[InterfaceRow],
) -> Result<Items<InterfaceRequest>, Memory>
    requires levels { AreLevelsOf inputs.now levels.now }
    requires interfaces { interfaces.now ≡ inputs.now.conf.interfaces }
    ensures { IfOk result (λ needs. needs ≡ filter_map (spec.interface_need (facts_of inputs.now))
        (firsts (λ row. row.name) interfaces.now)) }
{
    let mut needs = Items::new(alloc);
    for (place, row) in interfaces.iter().enumerate() {
        add_interface_need(alloc, &mut needs, levels, inputs, row, place)?;
    }
    Ok(needs)
}

fn add_interface_need(
    alloc: Global,
    needs: &mut Items<InterfaceRequest>,
    levels: &Levels,
    inputs: &Inputs,
    row: &InterfaceRow,
    place: usize,
) -> Result<(), Memory>
    requires { AreLevelsOf inputs.now levels.now }
    ensures { OnOk result (needs.new ≡ needs.old
        ++ filter_map (spec.interface_need (facts_of inputs.now)) (if is_place place
        (get (slice_cmp nat_cmp) levels.now.ports.index.interfaces row.now.name)
        then row.now ∷ [] else [])) }
{
    if !is_first(&levels.ports.index.interfaces, &row.name, place) {
        return Ok(());
    }
    match interface_need(alloc, levels, inputs, row)? {
        Some(need) => needs.push(need),
        None => Ok(()),
    }
}
