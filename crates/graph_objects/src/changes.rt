//! What changes in slots: objects are taken, put, or leave with a name.
ghost use Rattle.std.specs.Prelude.{◌≡◌, ◌<◌, ◌*◌, length, true};
ghost use Rattle.std.specs.FinSet as set;
ghost use Rattle.indexmap.specs.IndexMap.{set_value_at};
ghost use Rattle.kern_model.specs.ObjectOrder.{Has};
ghost use Rattle.kern_model.specs.Standing.{gone};
ghost use Rattle.kern_model.specs.Kernel.{after_call};
ghost use Rattle.kern_model.specs.Touched as touched;
ghost use Rattle.graph_objects.specs.Steady.{IsSteady};
ghost use Rattle.graph_objects.specs.Slots.{AreSlots, set_on, wishes};
ghost use Rattle.graph_objects.specs.Bits.{IsPut};
ghost use Rattle.graph_objects.specs.Marked.{AreMarked, differs};
ghost use Rattle.graph_objects.specs.Deciders.{deciders};
ghost use Rattle.graph_objects.specs.Changed as spec;

use crate::bits::Bits;
use crate::due::stands_on;
use crate::key::{ObjectKey, key_of};
use crate::marking::differs;
use crate::slot::{Side, Slot};
use indexmap::IndexMap;
use kern_model::{Call, DevName, Object};

/// Writes a slot, and marks it where what it holds and what is wanted in it differ.
fn write(slots: &mut IndexMap<ObjectKey, Slot>, marks: &mut Bits, index: usize, slot: Slot)
    requires within { index < length slots.old.entries }
    requires room { index < 64 * length marks.old }
    ensures slots { slots.new.entries ≡ set_value_at slots.old.entries index slot }
    ensures mark { IsPut marks.old marks.new index (differs slot) }
{
    marks.put(index, differs(&slot));
    slots[index] = slot;
}

/// A held object is held no longer.
pub(crate) fn take(slots: &mut IndexMap<ObjectKey, Slot>, marks: &mut Bits, object: &Object)
    requires slots { AreSlots slots.old.entries }
    requires marked { AreMarked marks.old slots.old.entries }
    requires held { Has (set_on Side.Held slots.old.entries) object.now }
    ensures slots { AreSlots slots.new.entries }
    ensures marked { AreMarked marks.new slots.new.entries }
    ensures held { set_on Side.Held slots.new.entries
        ≡ set.remove (set_on Side.Held slots.old.entries) object.now }
    ensures wishes { wishes slots.new.entries ≡ wishes slots.old.entries }
    ensures deciders { deciders slots.new.entries ≡ deciders slots.old.entries }
    ensures steady { IsSteady (set_on Side.Held slots.old.entries) }
{
    let Some(index) = slots.get_index_of(&key_of(object)) else {
        return;
    };
    let slot = Slot {
        held: None,
        ..slots[index]
    };
    write(slots, marks, index, slot);
}

/// A wanted object is held, in place of the one that it replaces. No object is to be taken.
pub(crate) fn put(slots: &mut IndexMap<ObjectKey, Slot>, marks: &mut Bits, object: &Object)
    requires slots { AreSlots slots.old.entries }
    requires marked { AreMarked marks.old slots.old.entries }
    requires wanted { Has (set_on Side.Wanted slots.old.entries) object.now }
    requires taken { (o : Object) → touched.is_taken (set_on Side.Held slots.old.entries)
        (set_on Side.Wanted slots.old.entries) o ≡ true → ⊥ }
    ensures slots { AreSlots slots.new.entries }
    ensures marked { AreMarked marks.new slots.new.entries }
    ensures held { set_on Side.Held slots.new.entries
        ≡ after_call (set_on Side.Held slots.old.entries) (Call.Put object.now) }
    ensures wishes { wishes slots.new.entries ≡ wishes slots.old.entries }
    ensures deciders { deciders slots.new.entries ≡ deciders slots.old.entries }
    ensures steady { IsSteady (set_on Side.Wanted slots.old.entries) }
{
    let Some(index) = slots.get_index_of(&key_of(object)) else {
        return;
    };
    let slot = Slot {
        held: Some(*object),
        ..slots[index]
    };
    write(slots, marks, index, slot);
}

/// Whether what is held stands on a name.
fn leaves(slots: &IndexMap<ObjectKey, Slot>, name: &DevName, held: Option<Object>) -> bool
    requires { AreSlots slots.now.entries }
    ensures { result ≡ spec.leaves_with (set_on Side.Held slots.now.entries) name.now held }
{
    match held {
        Some(object) => stands_on(slots, name, &object),
        None => false,
    }
}

/// Notes what stands on a name.
fn mark_leaving(slots: &mut IndexMap<ObjectKey, Slot>, name: &DevName)
    requires { AreSlots slots.old.entries }
    ensures { slots.new.entries ≡ spec.each_slot
        (spec.marked (set_on Side.Held slots.old.entries) name.now) slots.old.entries }
{
    for index in 0..slots.len() {
        let held = slots[index].held;
        let is_leaving = leaves(slots, name, held);
        slots[index].leaves = is_leaving;
    }
}

/// The slot without what leaves.
fn without_leaving(slot: &Slot) -> Slot
    ensures { result ≡ spec.let_go slot.now }
{
    if slot.leaves {
        Slot {
            held: None,
            ..*slot
        }
    } else {
        *slot
    }
}

/// Lets go what leaves.
fn let_go(slots: &mut IndexMap<ObjectKey, Slot>, marks: &mut Bits)
    requires { AreMarked marks.old slots.old.entries }
    ensures slots { slots.new.entries ≡ spec.each_slot spec.let_go slots.old.entries }
    ensures marked { AreMarked marks.new slots.new.entries }
{
    for index in 0..slots.len() {
        let left = without_leaving(&slots[index]);
        slots[index] = left;
        if left.leaves {
            marks.put(index, differs(&left));
        }
    }
}

/// What stands on a name goes with it.
pub(crate) fn leave(slots: &mut IndexMap<ObjectKey, Slot>, marks: &mut Bits, name: &DevName)
    requires slots { AreSlots slots.old.entries }
    requires marked { AreMarked marks.old slots.old.entries }
    ensures slots { AreSlots slots.new.entries }
    ensures marked { AreMarked marks.new slots.new.entries }
    ensures held { set_on Side.Held slots.new.entries
        ≡ gone (set_on Side.Held slots.old.entries) name.now }
    ensures wishes { wishes slots.new.entries ≡ wishes slots.old.entries }
    ensures deciders { deciders slots.new.entries ≡ deciders slots.old.entries }
{
    mark_leaving(slots, name);
    let_go(slots, marks);
}
