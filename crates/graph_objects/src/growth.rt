//! Slots are made for objects that may be wanted, and for those that are held from before.
ghost use Rattle.std.specs.Prelude.{◌≡◌, ◌≤◌, ◌+◌, ◌*◌, ℕ, length, Contains, Some, IfOk, OnOk};
ghost use Rattle.std.specs.Prelude.{OnErr};
ghost use Rattle.std.specs.FinSet as set;
ghost use Rattle.graph_objects.specs.Keys as key;
ghost use Rattle.graph_objects.specs.Slots.{AreSlots, listed, set_on, wishes};
ghost use Rattle.graph_objects.specs.Bits.{bit};
ghost use Rattle.graph_objects.specs.Marked.{AreMarked};
ghost use Rattle.graph_objects.specs.Deciders.{AreListed, HasNoNewWish, deciders, slots_of};
ghost use Rattle.graph_objects.specs.Grown as spec;

use crate::bits::Bits;
use crate::deciders::list_wish;
use crate::form::has_form;
use crate::key::{ObjectKey, key_of};
use crate::marking::mark_all;
use crate::slot::{Side, Slot, Wish};
use indexmap::IndexMap;
use kern_model::{LinkKind, Object};
use plane_io::Memory;

/// The place of an object's slot, which is made where there is none, with room for its mark.
fn slot_for(
    slots: &mut IndexMap<ObjectKey, Slot>,
    marks: &mut Bits,
    object: &Object,
) -> Result<usize, Memory>
    requires { length slots.old.entries ≤ 64 * length marks.old }
    ensures room { length slots.new.entries ≤ 64 * length marks.new }
    ensures same { (n : ℕ) → bit marks.new n ≡ bit marks.old n }
    ensures ok { IfOk result (spec.HasSlot slots.old.entries slots.new.entries
        (key.key_of object.now)) }
    ensures err { OnErr result (slots.new.entries ≡ slots.old.entries) }
{
    // A put into a map is proved only where a local names the enums within.
    let _named: Option<LinkKind> = None;
    let key = key_of(object);
    if let Some(index) = slots.get_index_of(&key) {
        return Ok(index);
    }
    let index = slots.len();
    marks.make_room(index)?;
    let slot = Slot {
        held: None,
        wish: None,
        leaves: false,
    };
    let _none = slots.insert(key, slot)?;
    Ok(index)
}

/// The place of the slot of a wish, which is listed at both of its ids.
fn slot_of_wish(
    slots: &mut IndexMap<ObjectKey, Slot>,
    marks: &mut Bits,
    by_id: &mut Vec<Vec<usize>>,
    wish: &Wish,
) -> Result<usize, Memory>
    requires room { length slots.old.entries ≤ 64 * length marks.old }
    requires listed { AreListed by_id.old.items (deciders slots.old.entries) }
    ensures room { length slots.new.entries ≤ 64 * length marks.new }
    ensures same { (n : ℕ) → bit marks.new n ≡ bit marks.old n }
    ensures listed { AreListed by_id.new.items (deciders slots.new.entries) }
    ensures ok { IfOk result (spec.HasSlot slots.old.entries slots.new.entries
        (key.key_of wish.now.object)) }
    ensures first { IfOk result (Contains (slots_of by_id.new.items wish.now.first)) }
    ensures second { IfOk result (Contains (slots_of by_id.new.items wish.now.second)) }
    ensures err { OnErr result (spec.MayHaveSlot slots.old.entries slots.new.entries
        (key.key_of wish.now.object)) }
{
    let index = slot_for(slots, marks, &wish.object)?;
    list_wish(by_id, wish, index)?;
    Ok(index)
}

/// An object may be wanted, where the names of two ids are used. Another of its key may not.
pub(crate) fn expect(
    slots: &mut IndexMap<ObjectKey, Slot>,
    marks: &mut Bits,
    by_id: &mut Vec<Vec<usize>>,
    wish: Wish,
) -> Result<(), Memory>
    requires slots { AreSlots slots.old.entries }
    requires marked { AreMarked marks.old slots.old.entries }
    requires listed { AreListed by_id.old.items (deciders slots.old.entries) }
    requires fits { spec.CanExpect (wishes slots.old.entries) wish }
    ensures slots { AreSlots slots.new.entries }
    ensures marked { AreMarked marks.new slots.new.entries }
    ensures listed { AreListed by_id.new.items (deciders slots.new.entries) }
    ensures few { length slots.new.entries ≤ length slots.old.entries + 1 }
    ensures held { listed Side.Held slots.new.entries ≡ listed Side.Held slots.old.entries }
    ensures ok { OnOk result (spec.HasMore (wishes slots.old.entries) (wishes slots.new.entries)
        wish) }
    ensures err { OnErr result (wishes slots.new.entries ≡ wishes slots.old.entries) }
{
    has_form(&wish.object);
    match slot_of_wish(slots, marks, by_id, &wish) {
        Ok(index) => {
            slots[index].wish = Some(wish);
            marks.put(index, true);
            Ok(())
        }
        Err(error) => Err(error),
    }
}

/// An object is held from before. No other of its key is. No slot is marked for that.
pub(crate) fn keep(
    slots: &mut IndexMap<ObjectKey, Slot>,
    marks: &mut Bits,
    object: &Object,
) -> Result<(), Memory>
    requires slots { AreSlots slots.old.entries }
    requires room { length slots.old.entries ≤ 64 * length marks.old }
    requires fits { spec.CanKeep (set_on Side.Held slots.old.entries) object.now }
    ensures slots { AreSlots slots.new.entries }
    ensures room { length slots.new.entries ≤ 64 * length marks.new }
    ensures ok { OnOk result (set_on Side.Held slots.new.entries
        ≡ set.insert (set_on Side.Held slots.old.entries) object.now) }
    ensures wishes { wishes slots.new.entries ≡ wishes slots.old.entries }
    ensures stay { HasNoNewWish (deciders slots.old.entries) (deciders slots.new.entries) }
    ensures few { length slots.new.entries ≤ length slots.old.entries + 1 }
{
    has_form(object);
    let index = slot_for(slots, marks, object)?;
    slots[index].held = Some(*object);
    Ok(())
}

/// What a slot holds is held from before, if anything.
fn keep_held(
    slots: &mut IndexMap<ObjectKey, Slot>,
    marks: &mut Bits,
    object: Option<Object>,
) -> Result<(), Memory>
    requires slots { AreSlots slots.old.entries }
    requires room { length slots.old.entries ≤ 64 * length marks.old }
    requires fits { (o : Object) → object ≡ Some o
        → spec.CanKeep (set_on Side.Held slots.old.entries) o }
    ensures slots { AreSlots slots.new.entries }
    ensures room { length slots.new.entries ≤ 64 * length marks.new }
    ensures ok { OnOk result (set_on Side.Held slots.new.entries
        ≡ spec.with_held (set_on Side.Held slots.old.entries) object) }
    ensures wishes { wishes slots.new.entries ≡ wishes slots.old.entries }
    ensures stay { HasNoNewWish (deciders slots.old.entries) (deciders slots.new.entries) }
    ensures few { length slots.new.entries ≤ length slots.old.entries + 1 }
{
    match object {
        Some(object) => keep(slots, marks, &object),
        None => Ok(()),
    }
}

/// What other slots hold is held from before, where nothing is held yet.
fn keep_each(
    slots: &mut IndexMap<ObjectKey, Slot>,
    marks: &mut Bits,
    old: &IndexMap<ObjectKey, Slot>,
) -> Result<(), Memory>
    requires slots { AreSlots slots.old.entries }
    requires room { length slots.old.entries ≤ 64 * length marks.old }
    requires old { AreSlots old.now.entries }
    requires none { set_on Side.Held slots.old.entries ≡ set.empty }
    ensures slots { AreSlots slots.new.entries }
    ensures room { length slots.new.entries ≤ 64 * length marks.new }
    ensures ok { OnOk result (set_on Side.Held slots.new.entries
        ≡ set_on Side.Held old.now.entries) }
    ensures wishes { wishes slots.new.entries ≡ wishes slots.old.entries }
    ensures stay { HasNoNewWish (deciders slots.old.entries) (deciders slots.new.entries) }
    ensures few { length slots.new.entries ≤ length slots.old.entries + length old.now.entries }
{
    for index in 0..old.len() {
        let held = old[index].held;
        keep_held(slots, marks, held)?;
    }
    Ok(())
}

/// What other slots hold is held from before, where nothing is held yet. All slots are marked.
pub(crate) fn keep_all(
    slots: &mut IndexMap<ObjectKey, Slot>,
    marks: &mut Bits,
    old: &IndexMap<ObjectKey, Slot>,
) -> Result<(), Memory>
    requires slots { AreSlots slots.old.entries }
    requires room { length slots.old.entries ≤ 64 * length marks.old }
    requires old { AreSlots old.now.entries }
    requires none { set_on Side.Held slots.old.entries ≡ set.empty }
    ensures slots { AreSlots slots.new.entries }
    ensures marked { AreMarked marks.new slots.new.entries }
    ensures ok { OnOk result (set_on Side.Held slots.new.entries
        ≡ set_on Side.Held old.now.entries) }
    ensures wishes { wishes slots.new.entries ≡ wishes slots.old.entries }
    ensures stay { HasNoNewWish (deciders slots.old.entries) (deciders slots.new.entries) }
    ensures few { length slots.new.entries ≤ length slots.old.entries + length old.now.entries }
{
    let kept = keep_each(slots, marks, old);
    mark_all(slots, marks);
    kept
}
