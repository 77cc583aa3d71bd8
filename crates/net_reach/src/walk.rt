//! The walk up from a name: the rows that stand on it, and the interfaces at it and at these.
ghost use Rattle.std.specs.Prelude.{◌≡◌, ◌++◌, [], ◌∷◌, ℕ, List, Contains, Some, slice_get};
ghost use Rattle.net_reach.specs.Places.{Places};
ghost use Rattle.net_reach.specs.Walk.{Leads, Stays, AreClimbed, Touches, TouchesOnly, HasTouched};

use crate::groups::places_at;
use crate::place_set::PlaceSet;
use kern_model::DevName;
use std::collections::BTreeMap;

/// The rows that stand on a name, each once, however far above it.
pub(crate) fn climb(
    rows: &mut PlaceSet,
    above: &BTreeMap<DevName, Vec<usize>>,
    names: &[DevName],
    base: &DevName,
)
    ensures bound { rows.new.bound ≡ rows.old.bound }
    ensures first { Leads above.now base.now rows.new }
    ensures further { (place : ℕ) (name : List ℕ) → Contains rows.new.list place
        → slice_get names.now place ≡ Some name → Leads above.now name rows.new }
    ensures only { AreClimbed above.now names.now base.now rows.new }
{
    rows.clear();
    rows.add_all(places_at(above, base));
    let mut next = 0;
    while next < rows.places().len() {
        let lower = rows.places()[next];
        add_above(rows, above, names, lower);
        next += 1;
    }
}

// Adds the rows that stand right on a row.
fn add_above(
    rows: &mut PlaceSet,
    above: &BTreeMap<DevName, Vec<usize>>,
    names: &[DevName],
    lower: usize,
)
    ensures stays { Stays rows.old rows.new }
    ensures above { (name : List ℕ) → slice_get names.now lower ≡ Some name
        → Leads above.now name rows.new }
    ensures only { (base : List ℕ) → Contains rows.old.list lower
        → AreClimbed above.now names.now base rows.old
        → AreClimbed above.now names.now base rows.new }
{
    match names.get(lower) {
        Some(name) => rows.add_all(places_at(above, name)),
        None => {}
    }
}

/// The interfaces at a name.
pub(crate) fn touch_at(
    touched: &mut PlaceSet,
    at_device: &BTreeMap<DevName, Vec<usize>>,
    at_l3_device: &BTreeMap<DevName, Vec<usize>>,
    name: &DevName,
)
    ensures stays { Stays touched.old touched.new }
    ensures touches { Touches at_device.now at_l3_device.now name.now touched.new }
    ensures only { TouchesOnly at_device.now at_l3_device.now name.now touched.old touched.new }
{
    touched.add_all(places_at(at_device, name));
    touched.add_all(places_at(at_l3_device, name));
}

/// The interfaces at the names of rows.
pub(crate) fn touch_rows(
    touched: &mut PlaceSet,
    at_device: &BTreeMap<DevName, Vec<usize>>,
    at_l3_device: &BTreeMap<DevName, Vec<usize>>,
    names: &[DevName],
    rows: &[usize],
)
    ensures { HasTouched at_device.now at_l3_device.now names.now rows.now touched.old touched.new }
{
    for row in rows {
        touch_row(touched, at_device, at_l3_device, names, *row);
    }
}

// The interfaces at the name of a row more.
fn touch_row(
    touched: &mut PlaceSet,
    at_device: &BTreeMap<DevName, Vec<usize>>,
    at_l3_device: &BTreeMap<DevName, Vec<usize>>,
    names: &[DevName],
    row: usize,
)
    ensures { (before : Places) (rows : List ℕ)
        → HasTouched at_device.now at_l3_device.now names.now rows before touched.old
        → HasTouched at_device.now at_l3_device.now names.now (rows ++ row ∷ []) before
        touched.new }
{
    match names.get(row) {
        Some(name) => touch_at(touched, at_device, at_l3_device, name),
        None => {}
    }
}
