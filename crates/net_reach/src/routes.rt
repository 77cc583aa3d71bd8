//! The routes of each interface that have no fault and are not disabled.
ghost use Rattle.std.specs.Prelude.{◌≡◌, ◌++◌, ◌&&◌, [], ◌∷◌, ℕ, List, None, not, if◌then◌else◌};
ghost use Rattle.std.specs.Prelude.{IfOk, OnOk, bytes_eq};
ghost use Rattle.std.specs.BTreeMap.{get, is_at};
ghost use Rattle.std.specs.Ordering.{nat_cmp};
ghost use Rattle.std.specs.Cmp.Lexicographic.{slice_cmp};
ghost use Rattle.std.specs.List.{slice_get};
ghost use Rattle.std.specs.Option.{option_and_then, option_copied};
ghost use Rattle.net_rules.specs.Rows as rows;
ghost use Rattle.net_view.specs.RadioPorts.{group_in};
ghost use Rattle.net_wants.specs.Grouped.{HasItems, is_route_named};

use net_rows::{InterfaceRow, RouteRow};
use net_rules::Inputs;
use plane_io::{Memory, Text};
use std::alloc::Global;
use std::collections::BTreeMap;

/// The places of the routes of each interface, in file order.
pub(crate) fn route_places(
    alloc: Global,
    inputs: &Inputs,
    routes: &[RouteRow],
) -> Result<BTreeMap<Text, Vec<usize>>, Memory>
    ensures { IfOk result (λ groups. HasItems groups (is_route_named inputs.now.conf) routes.now) }
{
    let mut groups = BTreeMap::new(alloc);
    for (place, route) in routes.iter().enumerate() {
        add_route_place(alloc, &mut groups, inputs, route, place)?;
    }
    Ok(groups)
}

fn add_route_place(
    alloc: Global,
    groups: &mut BTreeMap<Text, Vec<usize>>,
    inputs: &Inputs,
    route: &RouteRow,
    place: usize,
) -> Result<(), Memory>
    ensures { OnOk result ((q : List ℕ) → group_in groups.new q ≡ group_in groups.old q
        ++ (if is_route_named inputs.now.conf q route.now then place ∷ [] else [])) }
{
    match interface_of(inputs.conf.interfaces.as_slice(), route) {
        Some(row) => add_place_of_text(alloc, groups, &row.name, place),
        None => Ok(()),
    }
}

// The interface of a route that has no fault and is not disabled.
fn interface_of<'a>(interfaces: &'a [InterfaceRow], route: &RouteRow) -> Option<&'a InterfaceRow>
    ensures { option_copied result
        ≡ (if rows.is_faultless route.now.faults && not route.now.disabled
        then option_and_then (slice_get interfaces.now) route.now.interface else None) }
{
    if route.disabled {
        return None;
    }
    if !route.faults.as_slice().is_empty() {
        return None;
    }
    match route.interface {
        Some(place) => interfaces.get(place),
        None => None,
    }
}

fn add_place_of_text(
    alloc: Global,
    groups: &mut BTreeMap<Text, Vec<usize>>,
    name: &Text,
    place: usize,
) -> Result<(), Memory>
    ensures { OnOk result ((q : List ℕ) → group_in groups.new q
        ≡ group_in groups.old q ++ (if bytes_eq name.now q then place ∷ [] else [])) }
{
    let key = name.copy()?;
    let mut group = take_of_text(alloc, groups, name);
    group.push(place)?;
    let _none = groups.insert(key, group)?;
    Ok(())
}

// Takes the places of a name out of the map.
fn take_of_text(alloc: Global, groups: &mut BTreeMap<Text, Vec<usize>>, name: &Text) -> Vec<usize>
    ensures places { result.items ≡ group_in groups.old name.now }
    ensures others { (q : List ℕ) → get (slice_cmp nat_cmp) groups.new q
        ≡ (if is_at (slice_cmp nat_cmp name.now) q then None
        else get (slice_cmp nat_cmp) groups.old q) }
{
    match groups.remove(name) {
        Some(group) => group,
        None => Vec::new(alloc),
    }
}
