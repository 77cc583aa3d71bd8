//! What the last ids decide is forgotten.
ghost use Rattle.std.specs.Prelude.{◌≡◌, ◌≤◌, ◌*◌, length};
ghost use Rattle.graph_objects.specs.Marked.{AreMarked};
ghost use Rattle.graph_objects.specs.Changed as spec;

use crate::bits::Bits;
use crate::key::ObjectKey;
use crate::marking::mark_all;
use crate::slot::{Slot, Wish};
use indexmap::IndexMap;

/// The wish of a slot, where the first id that decides it is below a number.
fn wish_below(count: usize, slot: &Slot) -> Option<Wish>
    ensures { result ≡ (spec.slot_below count slot.now).wish }
{
    match &slot.wish {
        Some(wish) => {
            if wish.first < count {
                Some(*wish)
            } else {
                None
            }
        }
        None => None,
    }
}

fn keep_below(slots: &mut IndexMap<ObjectKey, Slot>, count: usize)
    ensures { slots.new.entries ≡ spec.each_slot (spec.slot_below count) slots.old.entries }
{
    for index in 0..slots.len() {
        let wish = wish_below(count, &slots[index]);
        slots[index].wish = wish;
    }
}

/// What ids from a number on decide may not be wanted any more. All slots are marked.
pub(crate) fn forget_from(slots: &mut IndexMap<ObjectKey, Slot>, marks: &mut Bits, count: usize)
    requires { length slots.old.entries ≤ 64 * length marks.old }
    ensures slots { slots.new.entries ≡ spec.each_slot (spec.slot_below count) slots.old.entries }
    ensures marked { AreMarked marks.new slots.new.entries }
{
    keep_below(slots, count);
    mark_all(slots, marks);
}
