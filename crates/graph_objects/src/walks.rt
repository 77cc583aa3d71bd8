//! Walks down the links of names: how high a name is, whether it loses its link, and what it is
//! over.
ghost use Rattle.std.specs.Prelude.{◌≡◌, ◌≤◌};
ghost use Rattle.kern_model.specs.Standing as standing;
ghost use Rattle.kern_model.specs.Touched as touched;
ghost use Rattle.graph_objects.specs.Slots.{AreSlots, set_on};

use crate::key::ObjectKey;
use crate::slot::{Side, Slot};
use crate::slots::{has, link_of, lower_name, lower_of};
use indexmap::IndexMap;
use kern_model::{DevName, Object};

/// How many VLANs a name is over on a side, its own counted, where that is no more than so many.
pub(crate) fn height(
    slots: &IndexMap<ObjectKey, Slot>,
    side: Side,
    name: &DevName,
    steps: usize,
) -> usize
    requires { AreSlots slots.now.entries }
    ensures few { result ≤ steps }
    ensures is { standing.height (set_on side slots.now.entries) name.now ≤ steps
        → result ≡ standing.height (set_on side slots.now.entries) name.now }
{
    let Some(lower) = lower_of(slots, side, name) else {
        return 0;
    };
    if steps == 0 {
        return 0;
    }
    height(slots, side, &lower, steps - 1) + 1
}

/// Whether a name of no more than that height is that of a held link that is not wanted, or over
/// one.
pub(crate) fn loses_link(slots: &IndexMap<ObjectKey, Slot>, name: &DevName, steps: usize) -> bool
    requires { AreSlots slots.now.entries }
    ensures { standing.height (set_on Side.Held slots.now.entries) name.now ≤ steps
        → result ≡ touched.loses_link (set_on Side.Held slots.now.entries)
        (set_on Side.Wanted slots.now.entries) name.now }
{
    let Some(kind) = link_of(slots, Side::Held, name) else {
        return false;
    };
    if !has(slots, Side::Wanted, &Object::Link { name: *name, kind }) {
        return true;
    }
    let Some(lower) = lower_name(&kind) else {
        return false;
    };
    if steps == 0 {
        return false;
    }
    loses_link(slots, &lower, steps - 1)
}

/// Whether a name of no more than that height is the base, or that of a held VLAN over it, however
/// far up.
pub(crate) fn is_over(
    slots: &IndexMap<ObjectKey, Slot>,
    base: &DevName,
    name: &DevName,
    steps: usize,
) -> bool
    requires { AreSlots slots.now.entries }
    ensures { standing.height (set_on Side.Held slots.now.entries) name.now ≤ steps
        → result ≡ standing.is_over (set_on Side.Held slots.now.entries) base.now name.now }
{
    if base.same(name) {
        return true;
    }
    let Some(lower) = lower_of(slots, Side::Held, name) else {
        return false;
    };
    if steps == 0 {
        return false;
    }
    is_over(slots, base, &lower, steps - 1)
}
