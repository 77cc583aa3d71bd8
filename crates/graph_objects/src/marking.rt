//! Slots are marked where an object may be taken or put, so that only these are gone over.
ghost use Rattle.std.specs.Prelude.{◌≡◌, ◌≤◌, ◌<◌, ◌*◌, ℕ, length, Contains, Some, true, false};
ghost use Rattle.kern_model.specs.declared.object.Object.{Object};
ghost use Rattle.kern_model.specs.Touched.{is_on_taken};
ghost use Rattle.graph_objects.specs.Slots.{AreSlots, set_on};
ghost use Rattle.graph_objects.specs.Deciders as lists;
ghost use Rattle.graph_objects.specs.Marked as spec;

use crate::bits::Bits;
use crate::deciders::slots_of;
use crate::due::{alone, is_on_taken};
use crate::key::ObjectKey;
use crate::slot::{Side, Slot};
use indexmap::IndexMap;
use kern_model::Object;

/// Whether what a slot holds and what is wanted in it differ.
pub(crate) fn differs(slot: &Slot) -> bool
    ensures { result ≡ spec.differs slot.now }
{
    alone(slot) > 0
}

/// Whether an object is a link.
fn is_link(object: &Object) -> bool
    ensures { result ≡ spec.is_link object.now }
{
    match object {
        Object::Link { .. } => true,
        _ => false,
    }
}

/// Whether a slot holds a link.
fn holds_link(slot: &Slot) -> bool
    ensures { result ≡ spec.holds_link slot.now.held }
{
    match &slot.held {
        Some(object) => is_link(object),
        None => false,
    }
}

/// Marks the slots with a difference, and no others. Says whether one of them holds a link.
fn mark_differences(slots: &IndexMap<ObjectKey, Slot>, marks: &mut Bits) -> bool
    requires { length slots.now.entries ≤ 64 * length marks.old }
    ensures differing { spec.MarkDifferences marks.new slots.now.entries }
    ensures links { result ≡ false → spec.AreLinksWanted slots.now.entries }
    ensures size { length marks.new ≡ length marks.old }
{
    let mut loses_link = false;
    for index in 0..slots.len() {
        let slot = &slots[index];
        let is_apart = differs(slot);
        marks.put(index, is_apart);
        loses_link = loses_link | (is_apart & holds_link(slot));
    }
    loses_link
}

/// Whether a slot holds an object on a link that is taken.
fn holds_falling(slots: &IndexMap<ObjectKey, Slot>, slot: &Slot) -> bool
    requires { AreSlots slots.now.entries }
    ensures { (o : Object) → slot.now.held ≡ Some o → result
        ≡ is_on_taken (set_on Side.Held slots.now.entries)
        (set_on Side.Wanted slots.now.entries) o }
{
    match &slot.held {
        Some(object) => is_on_taken(slots, object),
        None => false,
    }
}

/// Marks also the slots that hold an object on a link that is taken.
fn mark_falling(slots: &IndexMap<ObjectKey, Slot>, marks: &mut Bits)
    requires slots { AreSlots slots.now.entries }
    requires room { length slots.now.entries ≤ 64 * length marks.old }
    requires differing { spec.MarkDifferences marks.old slots.now.entries }
    ensures { spec.AreMarked marks.new slots.now.entries }
{
    for index in 0..slots.len() {
        if holds_falling(slots, &slots[index]) {
            marks.put(index, true);
        }
    }
}

/// Marks the slots of which an object may be taken or put, and no others.
pub(crate) fn mark(slots: &IndexMap<ObjectKey, Slot>, marks: &mut Bits)
    requires slots { AreSlots slots.now.entries }
    requires room { length slots.now.entries ≤ 64 * length marks.old }
    ensures { spec.AreMarked marks.new slots.now.entries }
{
    if mark_differences(slots, marks) {
        mark_falling(slots, marks);
    }
}

/// Marks all slots.
pub(crate) fn mark_all(slots: &IndexMap<ObjectKey, Slot>, marks: &mut Bits)
    requires { length slots.now.entries ≤ 64 * length marks.old }
    ensures { spec.AreMarked marks.new slots.now.entries }
{
    for index in 0..slots.len() {
        marks.put(index, true);
    }
}

/// Whether an object of a slot may be taken or put.
fn may_be_due(slots: &IndexMap<ObjectKey, Slot>, slot: &Slot) -> bool
    requires { AreSlots slots.now.entries }
    ensures differing { spec.differs slot.now ≡ true → result ≡ true }
    ensures falling { (o : Object) → slot.now.held ≡ Some o
        → is_on_taken (set_on Side.Held slots.now.entries)
        (set_on Side.Wanted slots.now.entries) o ≡ true → result ≡ true }
{
    differs(slot) || holds_falling(slots, slot)
}

/// Marks the slots that are listed at an id where an object may be taken or put, and no others of
/// them.
fn mark_id(slots: &IndexMap<ObjectKey, Slot>, marks: &mut Bits, by_id: &[Vec<usize>], id: usize)
    requires slots { AreSlots slots.now.entries }
    requires room { length slots.now.entries ≤ 64 * length marks.old }
    requires within { (i : ℕ) → Contains (lists.slots_of by_id.now id) i
        → i < length slots.now.entries }
    ensures { spec.MarkSome slots.now.entries marks.old marks.new
        (Contains (lists.slots_of by_id.now id)) }
{
    let listed = slots_of(by_id, id);
    for place in listed {
        let is_due = may_be_due(slots, &slots[*place]);
        marks.put(*place, is_due);
    }
}

/// Marks the slots that are listed at ids where an object may be taken or put, and no others of
/// them.
pub(crate) fn mark_ids(
    slots: &IndexMap<ObjectKey, Slot>,
    marks: &mut Bits,
    by_id: &[Vec<usize>],
    ids: &[usize],
)
    requires slots { AreSlots slots.now.entries }
    requires room { length slots.now.entries ≤ 64 * length marks.old }
    requires within { (id i : ℕ) → Contains (lists.slots_of by_id.now id) i
        → i < length slots.now.entries }
    ensures { spec.MarkSome slots.now.entries marks.old marks.new
        (lists.IsListed by_id.now ids.now) }
{
    for id in ids {
        mark_id(slots, marks, by_id, *id);
    }
}
