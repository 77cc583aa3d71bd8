//! What is wanted is judged anew by the names that are used: all of it, or what some ids decide.
ghost use Rattle.std.specs.Prelude.{◌≡◌, ◌≤◌, ◌*◌, ◌∷◌, [], length, map};
ghost use Rattle.graph_objects.specs.Marks as uses;
ghost use Rattle.graph_objects.specs.Slots.{AreSlots, wishes};
ghost use Rattle.graph_objects.specs.Marked.{AreMarked};
ghost use Rattle.graph_objects.specs.Deciders.{AreListed, deciders};
ghost use Rattle.graph_objects.specs.Decided as decided;
ghost use Rattle.graph_objects.specs.Changed as spec;

use crate::bits::Bits;
use crate::deciders::slots_of;
use crate::key::ObjectKey;
use crate::marking::{mark, mark_ids};
use crate::slot::{Slot, Wish};
use indexmap::IndexMap;

fn is_used(used: &[bool], id: usize) -> bool
    ensures { result ≡ uses.is_used used.now id }
{
    match used.get(id) {
        Some(used) => *used,
        None => false,
    }
}

/// A wish is wanted where both of its names are used.
fn judged(used: &[bool], wish: &Wish) -> Wish
    ensures { result ≡ uses.judged used.now wish.now }
{
    Wish {
        wanted: is_used(used, wish.first) && is_used(used, wish.second),
        ..*wish
    }
}

fn judged_wish(used: &[bool], slot: &Slot) -> Option<Wish>
    ensures { result ≡ (spec.judged_slot used.now slot.now).wish }
{
    match &slot.wish {
        Some(wish) => Some(judged(used, wish)),
        None => None,
    }
}

/// Objects are wanted where the names of their two ids are used.
fn judge_slots(slots: &mut IndexMap<ObjectKey, Slot>, used: &[bool])
    ensures { slots.new.entries ≡ spec.each_slot (spec.judged_slot used.now) slots.old.entries }
{
    for index in 0..slots.len() {
        let wish = judged_wish(used, &slots[index]);
        slots[index].wish = wish;
    }
}

/// Objects are wanted where the names of their two ids are used, and slots are marked anew.
pub(crate) fn judge(slots: &mut IndexMap<ObjectKey, Slot>, marks: &mut Bits, used: &[bool])
    requires slots { AreSlots slots.old.entries }
    requires room { length slots.old.entries ≤ 64 * length marks.old }
    ensures slots { slots.new.entries ≡ spec.each_slot (spec.judged_slot used.now)
        slots.old.entries }
    ensures marked { AreMarked marks.new slots.new.entries }
{
    judge_slots(slots, used);
    mark(slots, marks);
}

/// Whether an id is one of the two of a wish.
fn decides(id: usize, wish: &Wish) -> bool
    ensures { result ≡ decided.decides id wish.now }
{
    wish.first == id || wish.second == id
}

/// The wish, judged where the id decides it.
fn judged_by(used: &[bool], id: usize, wish: &Wish) -> Wish
    ensures { result ≡ decided.judged_by used.now (id ∷ []) wish.now }
{
    if decides(id, wish) {
        judged(used, wish)
    } else {
        *wish
    }
}

fn decided_wish(used: &[bool], id: usize, slot: &Slot) -> Option<Wish>
    ensures { result ≡ (spec.judged_slot_by used.now (id ∷ []) slot.now).wish }
{
    match &slot.wish {
        Some(wish) => Some(judged_by(used, id, wish)),
        None => None,
    }
}

/// Objects that an id decides are wanted where the names of their two ids are used.
fn judge_id(slots: &mut IndexMap<ObjectKey, Slot>, by_id: &[Vec<usize>], used: &[bool], id: usize)
    requires { AreListed by_id.now (deciders slots.old.entries) }
    ensures { slots.new.entries ≡ spec.each_slot (spec.judged_slot_by used.now (id ∷ []))
        slots.old.entries }
{
    let listed = slots_of(by_id, id);
    for place in listed {
        let wish = decided_wish(used, id, &slots[*place]);
        slots[*place].wish = wish;
    }
}

/// Objects that one of some ids decides are wanted where the names of their two ids are used.
fn judge_each(
    slots: &mut IndexMap<ObjectKey, Slot>,
    by_id: &[Vec<usize>],
    used: &[bool],
    ids: &[usize],
)
    requires { AreListed by_id.now (deciders slots.old.entries) }
    ensures { slots.new.entries ≡ spec.each_slot (spec.judged_slot_by used.now ids.now)
        slots.old.entries }
{
    for id in ids {
        judge_id(slots, by_id, used, *id);
    }
}

/// The same, and the slots of these ids are marked anew. Of the others none comes to be due by
/// that, since what is wanted stands on links that are wanted.
pub(crate) fn judge_ids(
    slots: &mut IndexMap<ObjectKey, Slot>,
    marks: &mut Bits,
    by_id: &[Vec<usize>],
    used: &[bool],
    ids: &[usize],
)
    requires slots { AreSlots slots.old.entries }
    requires marked { AreMarked marks.old slots.old.entries }
    requires listed { AreListed by_id.now (deciders slots.old.entries) }
    requires stand { decided.StandOnWanted (map (decided.judged_by used.now ids.now)
        (wishes slots.old.entries)) }
    ensures slots { slots.new.entries ≡ spec.each_slot (spec.judged_slot_by used.now ids.now)
        slots.old.entries }
    ensures marked { AreMarked marks.new slots.new.entries }
{
    judge_each(slots, by_id, used, ids);
    mark_ids(slots, marks, by_id, ids);
}
