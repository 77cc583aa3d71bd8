//! Which objects are taken and put, what stands on a name, and how much is due.
ghost use Rattle.std.specs.Prelude.{◌≡◌, ◌≤◌, ◌*◌, length};
ghost use Rattle.kern_model.specs.ObjectOrder.{Has};
ghost use Rattle.kern_model.specs.Standing as standing;
ghost use Rattle.kern_model.specs.Touched as touched;
ghost use Rattle.kern_calls.specs.Due.{due_count};
ghost use Rattle.graph_objects.specs.Slots.{AreSlots, set_on, on};
ghost use Rattle.graph_objects.specs.Marked.{AreMarked};
ghost use Rattle.graph_objects.specs.Alone as spec;

use crate::bits::Bits;
use crate::key::ObjectKey;
use crate::slot::{self, Side, Slot};
use crate::slots::{has, object_at};
use crate::walks;
use indexmap::IndexMap;
use kern_model::{DevName, LinkKind, Object};

/// Whether a name is that of a held link that is not wanted, or over one.
pub(crate) fn loses_link(slots: &IndexMap<ObjectKey, Slot>, name: &DevName) -> bool
    requires { AreSlots slots.now.entries }
    ensures { result ≡ touched.loses_link (set_on Side.Held slots.now.entries)
        (set_on Side.Wanted slots.now.entries) name.now }
{
    walks::loses_link(slots, name, slots.len())
}

/// Whether a place of the object loses its link.
pub(crate) fn is_on_taken(slots: &IndexMap<ObjectKey, Slot>, object: &Object) -> bool
    requires { AreSlots slots.now.entries }
    ensures { result ≡ touched.is_on_taken (set_on Side.Held slots.now.entries)
        (set_on Side.Wanted slots.now.entries) object.now }
{
    match object {
        Object::Link {
            kind: LinkKind::Vlan { lower, .. },
            ..
        } => loses_link(slots, lower),
        Object::Link { .. } => false,
        Object::Mtu { name, .. } => loses_link(slots, name),
        Object::Mac { name, .. } => loses_link(slots, name),
        Object::Master { port, bridge } => loses_link(slots, port) || loses_link(slots, bridge),
        Object::Vlan { bridge, port, .. } => loses_link(slots, port) || loses_link(slots, bridge),
        Object::Up { name } => loses_link(slots, name),
        Object::Address { dev, .. } => loses_link(slots, dev),
        Object::Route(route) => loses_link(slots, &route.dev),
    }
}

/// Whether a held object is taken.
pub(crate) fn is_taken(slots: &IndexMap<ObjectKey, Slot>, object: &Object) -> bool
    requires { AreSlots slots.now.entries }
    ensures { Has (set_on Side.Held slots.now.entries) object.now → result
        ≡ touched.is_taken (set_on Side.Held slots.now.entries)
        (set_on Side.Wanted slots.now.entries) object.now }
{
    if is_on_taken(slots, object) {
        return true;
    }
    match object_at(slots, Side::Wanted, object) {
        Some(wanted) => {
            let stays = wanted.same(object);
            let is_replaced = wanted.replaces(object);
            !stays & !is_replaced
        }
        None => true,
    }
}

/// Whether a wanted object is put.
pub(crate) fn is_put(slots: &IndexMap<ObjectKey, Slot>, object: &Object) -> bool
    requires { AreSlots slots.now.entries }
    ensures { Has (set_on Side.Wanted slots.now.entries) object.now → result
        ≡ touched.is_put (set_on Side.Held slots.now.entries)
        (set_on Side.Wanted slots.now.entries) object.now }
{
    if is_on_taken(slots, object) {
        return true;
    }
    !has(slots, Side::Held, object)
}

fn is_over(slots: &IndexMap<ObjectKey, Slot>, base: &DevName, name: &DevName) -> bool
    requires { AreSlots slots.now.entries }
    ensures { result ≡ standing.is_over (set_on Side.Held slots.now.entries) base.now name.now }
{
    walks::is_over(slots, base, name, slots.len())
}

/// Whether an object stands on a name.
pub(crate) fn stands_on(slots: &IndexMap<ObjectKey, Slot>, base: &DevName, object: &Object) -> bool
    requires { AreSlots slots.now.entries }
    ensures { result ≡ standing.stands_on (set_on Side.Held slots.now.entries) base.now
        object.now }
{
    match object {
        Object::Link {
            kind: LinkKind::Vlan { lower, .. },
            ..
        } => is_over(slots, base, lower),
        Object::Link { .. } => false,
        Object::Mtu { name, .. } => is_over(slots, base, name),
        Object::Mac { name, .. } => is_over(slots, base, name),
        Object::Master { port, bridge } => {
            is_over(slots, base, port) || is_over(slots, base, bridge)
        }
        Object::Vlan { bridge, port, .. } => {
            is_over(slots, base, port) || is_over(slots, base, bridge)
        }
        Object::Up { name } => is_over(slots, base, name),
        Object::Address { dev, .. } => is_over(slots, base, dev),
        Object::Route(route) => is_over(slots, base, &route.dev),
    }
}

/// How many objects of a slot are on one side alone.
pub(crate) fn alone(slot: &Slot) -> u64
    ensures { result ≡ spec.alone (on Side.Held slot.now) (on Side.Wanted slot.now) }
{
    let Some(held) = slot::on(Side::Held, slot) else {
        return match slot::on(Side::Wanted, slot) {
            Some(_) => 1,
            None => 0,
        };
    };
    match slot::on(Side::Wanted, slot) {
        Some(wanted) => { if held.is(&wanted) { 0 } else { 2 } }
        None => 1,
    }
}

/// How many objects are on one side alone. Only marked slots have such objects.
pub(crate) fn count(slots: &IndexMap<ObjectKey, Slot>, marks: &Bits) -> u64
    requires slots { AreSlots slots.now.entries }
    requires marked { AreMarked marks.now slots.now.entries }
    ensures due { result ≡ due_count (set_on Side.Held slots.now.entries)
        (set_on Side.Wanted slots.now.entries) }
    ensures few { result ≤ 2 * length slots.now.entries }
{
    let end = slots.len();
    let mut count = 0;
    let mut start = 0;
    while let Some(index) = marks.first_between(start, end) {
        count += alone(&slots[index]);
        start = index + 1;
    }
    count
}
