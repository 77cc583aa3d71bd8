//! Lists of places by name.
ghost use Rattle.std.specs.Prelude.{◌≡◌, ◌++◌, [], ◌∷◌, ℕ, List, None, if◌then◌else◌, OnOk};
ghost use Rattle.std.specs.Prelude.{bytes_eq};
ghost use Rattle.std.specs.BTreeMap.{get, is_at};
ghost use Rattle.std.specs.Ordering.{nat_cmp};
ghost use Rattle.std.specs.Cmp.Lexicographic.{slice_cmp};
ghost use Rattle.net_view.specs.RadioPorts.{group_in};
ghost use Rattle.net_reach.specs.Groups as spec;

use kern_model::DevName;
use plane_io::Memory;
use std::alloc::Global;
use std::collections::BTreeMap;

/// The places of a name.
pub(crate) fn places_at<'a>(
    groups: &'a BTreeMap<DevName, Vec<usize>>,
    name: &DevName,
) -> &'a [usize]
    ensures { result.now ≡ group_in groups.now name.now }
{
    match groups.get(name) {
        Some(places) => places.as_slice(),
        None => &[],
    }
}

/// Adds a place to those of a name, at the end.
pub(crate) fn add_place(
    alloc: Global,
    groups: &mut BTreeMap<DevName, Vec<usize>>,
    name: &DevName,
    place: usize,
) -> Result<(), Memory>
    ensures { OnOk result ((q : List ℕ) → group_in groups.new q
        ≡ group_in groups.old q ++ (if bytes_eq name.now q then place ∷ [] else [])) }
{
    let mut group = take_group(alloc, groups, name);
    group.push(place)?;
    let _none = groups.insert(*name, group)?;
    Ok(())
}

/// Adds a place to those of a name, at the end, where it is not the last of them.
pub(crate) fn add_last(
    alloc: Global,
    groups: &mut BTreeMap<DevName, Vec<usize>>,
    name: &DevName,
    place: usize,
) -> Result<(), Memory>
    ensures { OnOk result ((q : List ℕ) → group_in groups.new q ≡ (if bytes_eq name.now q
        then spec.with_last (group_in groups.old q) place else group_in groups.old q)) }
{
    if is_last(places_at(groups, name), place) {
        return Ok(());
    }
    add_place(alloc, groups, name, place)
}

fn is_last(places: &[usize], place: usize) -> bool
    ensures { result ≡ spec.is_last places.now place }
{
    match places.last() {
        Some(last) => *last == place,
        None => false,
    }
}

// Takes the places of a name out of the map.
fn take_group(
    alloc: Global,
    groups: &mut BTreeMap<DevName, Vec<usize>>,
    name: &DevName,
) -> Vec<usize>
    ensures places { result.items ≡ group_in groups.old name.now }
    ensures others { (q : List ℕ) → get (slice_cmp nat_cmp) groups.new q
        ≡ (if is_at (slice_cmp nat_cmp name.now) q then None
        else get (slice_cmp nat_cmp) groups.old q) }
{
    match groups.remove(name) {
        Some(group) => group,
        None => Vec::new(alloc),
    }
}

/// Takes room for one more place of a name. Each name keeps its places and its room, also where
/// memory lacks.
pub(crate) fn reserve_place(
    alloc: Global,
    groups: &mut BTreeMap<DevName, Vec<usize>>,
    name: &DevName,
) -> Result<(), Memory>
    ensures room { OnOk result (spec.HasRoomAt groups.new name.now) }
    ensures rooms { (q : List ℕ) → spec.HasRoomAt groups.old q → spec.HasRoomAt groups.new q }
    ensures places { (q : List ℕ) → group_in groups.new q ≡ group_in groups.old q }
{
    if let Some(group) = groups.get_mut(name) {
        group.reserve(1)?;
        return Ok(());
    }
    let mut group = Vec::new(alloc);
    group.reserve(1)?;
    let _none = groups.insert(*name, group)?;
    Ok(())
}

/// Adds a place to those of a name, at the end. It takes no memory.
pub(crate) fn put_place(groups: &mut BTreeMap<DevName, Vec<usize>>, name: &DevName, place: usize)
    requires { spec.HasRoomAt groups.old name.now }
    ensures { (q : List ℕ) → group_in groups.new q
        ≡ group_in groups.old q ++ (if bytes_eq name.now q then place ∷ [] else []) }
{
    if let Some(group) = groups.get_mut(name) {
        group.push_reserved(place);
    }
}

/// Takes a place out of those of a name. Its room stays.
pub(crate) fn take_place(groups: &mut BTreeMap<DevName, Vec<usize>>, name: &DevName, place: usize)
    ensures places { (q : List ℕ) → group_in groups.new q ≡ (if bytes_eq name.now q
        then spec.without_place (group_in groups.old q) place else group_in groups.old q) }
    ensures rooms { (q : List ℕ) → spec.HasRoomAt groups.old q → spec.HasRoomAt groups.new q }
{
    if let Some(group) = groups.get_mut(name) {
        group.retain(|other| *other != place);
    }
}
