//! What is due is put in the order of its calls once, and is then taken off one after another.
ghost use Rattle.std.specs.Prelude.{◌≡◌, ◌<◌, ◌≤◌, ◌+◌, ◌-◌, ◌++◌, IfSome, IfNone, OnOk, Some};
ghost use Rattle.std.specs.Prelude.{length, slice_get, vec_len, vec_capacity, true, false};
ghost use Rattle.std.specs.Option.{option_to_list};
ghost use Rattle.std.specs.List.Sorted.{IsPermutation};
ghost use Rattle.graph_objects.specs.Slots.{AreSlots, set_on};
ghost use Rattle.graph_objects.specs.Steady.{IsSteady};
ghost use Rattle.graph_objects.specs.Marked.{AreMarked};
ghost use Rattle.graph_objects.specs.Turns as turns;
ghost use Rattle.graph_objects.specs.Ordered as spec;

use crate::bits::Bits;
use crate::key::ObjectKey;
use crate::slot::{Side, Slot};
use crate::slots::object_at;
use crate::turn::{Placed, Turn, due_at, first, is_due, side_of};
use indexmap::IndexMap;
use kern_model::Object;
use plane_io::Memory;
use std::alloc::Global;

/// What is due of each turn, the first at the end, while that is kept. There is room for what is in
/// all slots.
#[derive(Drop)]
pub(crate) struct Order {
    pub(crate) takes: Vec<Placed>,
    pub(crate) puts: Vec<Placed>,
    pub(crate) is_kept: bool,
}

/// No order. It takes no memory.
pub(crate) fn no_order(alloc: Global) -> Order
    ensures { result.is_kept ≡ false }
{
    Order {
        takes: Vec::new(alloc),
        puts: Vec::new(alloc),
        is_kept: false,
    }
}

/// There are no more slots than this, so that what is due can be counted.
const MOST_SLOTS: usize = 1 << 61;

/// Makes room for so many calls of each turn. More than `MOST_SLOTS` want memory.
pub(crate) fn make_room(order: &mut Order, count: usize) -> Result<(), Memory>
    ensures kept { order.new.is_kept ≡ order.old.is_kept }
    ensures ok { OnOk result (spec.HasRoom order.new count) }
    ensures takes { vec_capacity order.old.takes ≤ vec_capacity order.new.takes }
    ensures puts { vec_capacity order.old.puts ≤ vec_capacity order.new.puts }
{
    if count > MOST_SLOTS {
        return Err(Memory);
    }
    order.takes.reserve(count)?;
    order.puts.reserve(count)?;
    Ok(())
}

/// Whether an object is due.
fn is_still_due(slots: &IndexMap<ObjectKey, Slot>, turn: Turn, object: &Object) -> bool
    requires { AreSlots slots.now.entries }
    ensures is { result ≡ turns.is_due turn (set_on Side.Held slots.now.entries)
        (set_on Side.Wanted slots.now.entries) object.now }
    ensures steady { IsSteady (set_on (turns.side_of turn) slots.now.entries) }
{
    let Some(found) = object_at(slots, side_of(turn), object) else {
        return false;
    };
    if !found.same(object) {
        return false;
    }
    is_due(slots, turn, object)
}

/// The last object of a list that is due, which is the first of its turn.
fn last_due(slots: &IndexMap<ObjectKey, Slot>, turn: Turn, list: &[Placed]) -> Option<Object>
    requires slots { AreSlots slots.now.entries }
    requires listed { spec.ListsDue turn slots.now.entries list.now }
    ensures some { IfSome result (turns.IsFirst turn (set_on Side.Held slots.now.entries)
        (set_on Side.Wanted slots.now.entries)) }
    ensures none { IfNone result ((o : Object) → turns.is_due turn
        (set_on Side.Held slots.now.entries) (set_on Side.Wanted slots.now.entries) o ≡ true → ⊥) }
{
    let mut left = list.len();
    while left > 0 {
        left -= 1;
        let placed = &list[left];
        if is_still_due(slots, turn, &placed.object) {
            return Some(placed.object);
        }
    }
    None
}

/// The first object of a turn: by its list where that is kept, else it is looked for in marked
/// slots.
pub(crate) fn first_of(
    slots: &IndexMap<ObjectKey, Slot>,
    marks: &Bits,
    turn: Turn,
    is_kept: bool,
    list: &[Placed],
) -> Option<Object>
    requires slots { AreSlots slots.now.entries }
    requires marked { AreMarked marks.now slots.now.entries }
    requires listed { is_kept ≡ true → spec.ListsDue turn slots.now.entries list.now }
    ensures some { IfSome result (turns.IsFirst turn (set_on Side.Held slots.now.entries)
        (set_on Side.Wanted slots.now.entries)) }
    ensures none { IfNone result ((o : Object) → turns.is_due turn
        (set_on Side.Held slots.now.entries) (set_on Side.Wanted slots.now.entries) o ≡ true → ⊥) }
{
    if is_kept {
        last_due(slots, turn, list)
    } else {
        first(slots, marks, turn)
    }
}

/// One more of a list, if there is one.
fn add(list: &mut Vec<Placed>, placed: Option<Placed>)
    requires { vec_len list.old < vec_capacity list.old }
    ensures items { list.new.items ≡ list.old.items ++ option_to_list placed }
    ensures size { vec_len list.new ≤ vec_len list.old + 1 }
    ensures capacity { vec_capacity list.new ≡ vec_capacity list.old }
{
    if let Some(placed) = placed {
        list.push_reserved(placed);
    }
}

/// Fills a list with what is due of a turn, which is in marked slots.
fn fill(slots: &IndexMap<ObjectKey, Slot>, marks: &Bits, turn: Turn, list: &mut Vec<Placed>)
    requires slots { AreSlots slots.now.entries }
    requires marked { AreMarked marks.now slots.now.entries }
    requires room { length slots.now.entries ≤ vec_capacity list.old }
    ensures due { spec.HasDue turn slots.now.entries list.new.items }
    ensures capacity { vec_capacity list.new ≡ vec_capacity list.old }
{
    list.clear();
    let end = slots.len();
    let mut start = 0;
    while let Some(index) = marks.first_between(start, end) {
        add(list, due_at(slots, turn, index));
        start = index + 1;
    }
}

/// Sorts a list by the places of its calls, the first at the end.
fn sort(list: &mut Vec<Placed>)
    ensures same { IsPermutation list.old.items list.new.items }
    ensures down { spec.ComeDown list.new.items }
    ensures capacity { vec_capacity list.new ≡ vec_capacity list.old }
{
    list.sort_unstable_by(|one, other| other.place.cmp(&one.place));
}

fn list_due(slots: &IndexMap<ObjectKey, Slot>, marks: &Bits, turn: Turn, list: &mut Vec<Placed>)
    requires slots { AreSlots slots.now.entries }
    requires marked { AreMarked marks.now slots.now.entries }
    requires room { length slots.now.entries ≤ vec_capacity list.old }
    ensures listed { spec.ListsDue turn slots.now.entries list.new.items }
    ensures capacity { vec_capacity list.new ≡ vec_capacity list.old }
{
    fill(slots, marks, turn, list);
    sort(list);
}

/// Puts what is due in order, where it is not yet. It takes no memory.
pub(crate) fn put_in_order(slots: &IndexMap<ObjectKey, Slot>, marks: &Bits, order: &mut Order)
    requires slots { AreSlots slots.now.entries }
    requires marked { AreMarked marks.now slots.now.entries }
    requires order { spec.IsOrder order.old slots.now.entries }
    requires room { spec.HasRoom order.old (length slots.now.entries) }
    ensures order { spec.IsOrder order.new slots.now.entries }
    ensures room { spec.HasRoom order.new (length slots.now.entries) }
{
    if order.is_kept {
        return;
    }
    list_due(slots, marks, Turn::Takes, &mut order.takes);
    list_due(slots, marks, Turn::Puts, &mut order.puts);
    order.is_kept = true;
}

/// Whether an object is the first of the takes, which are in order.
pub(crate) fn is_next(slots: &IndexMap<ObjectKey, Slot>, order: &Order, object: &Object) -> bool
    requires slots { AreSlots slots.now.entries }
    requires order { spec.IsOrder order.now slots.now.entries }
    ensures kept { result ≡ true → order.now.is_kept ≡ true }
    ensures first { result ≡ true → turns.IsFirst Turn.Takes
        (set_on Side.Held slots.now.entries) (set_on Side.Wanted slots.now.entries) object.now }
{
    if !order.is_kept {
        return false;
    }
    match last_due(slots, Turn::Takes, &order.takes) {
        Some(first) => first.same(object),
        None => false,
    }
}

/// Whether the last of a list is no longer due.
fn ends_done(slots: &IndexMap<ObjectKey, Slot>, turn: Turn, list: &[Placed]) -> bool
    requires { AreSlots slots.now.entries }
    ensures { result ≡ true → (p : _) → slice_get list.now (length list.now - 1) ≡ Some p
        → turns.is_due turn (set_on Side.Held slots.now.entries)
        (set_on Side.Wanted slots.now.entries) p.object ≡ false }
{
    match list.last() {
        Some(placed) => !is_still_due(slots, turn, &placed.object),
        None => false,
    }
}

/// Takes off the last of a list, where it is no longer due.
pub(crate) fn drop_done(slots: &IndexMap<ObjectKey, Slot>, turn: Turn, list: &mut Vec<Placed>)
    requires { AreSlots slots.now.entries }
    ensures listed { spec.ListsDue turn slots.now.entries list.old.items
        → spec.ListsDue turn slots.now.entries list.new.items }
    ensures capacity { vec_capacity list.new ≡ vec_capacity list.old }
{
    if ends_done(slots, turn, list) {
        let _done = list.pop();
    }
}
