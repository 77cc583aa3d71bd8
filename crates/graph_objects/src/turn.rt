//! The first of the takes, and the first of the puts.
ghost use Rattle.std.specs.Prelude.{◌≡◌, ◌<◌, ◌≤◌, length, IfSome, IfNone, true};
ghost use Rattle.kern_model.specs.CallOrder.{rank, height_of};
ghost use Rattle.kern_model.specs.ObjectOrder.{Has};
ghost use Rattle.graph_objects.specs.Slots.{AreSlots, set_on};
ghost use Rattle.graph_objects.specs.Marked.{AreMarked};
ghost use Rattle.graph_objects.specs.Turns as spec;
ghost use Rattle.graph_objects.specs.Places as places;

use crate::bits::Bits;
use crate::due::{is_put, is_taken};
use crate::key::ObjectKey;
use crate::line::Line;
use crate::slot::{Side, Slot, on};
use crate::walks;
use indexmap::IndexMap;
use kern_model::{Call, Mac, Object};

/// What is called for: takes come first, then puts.
#[derive(Clone, Copy)]
pub(crate) enum Turn {
    Takes,
    Puts,
}

/// Where a call stands among others: by its rank, by its height, then by the bytes of its line.
#[derive(PartialEq, Eq, PartialOrd, Ord, Drop)]
pub(crate) struct CallPlace {
    pub(crate) rank: u8,
    pub(crate) height: usize,
    pub(crate) line: Line,
}

/// An object with the place of its call.
#[derive(Drop)]
pub(crate) struct Placed {
    pub(crate) place: CallPlace,
    pub(crate) object: Object,
}

/// The side of which a turn's objects are.
pub(crate) fn side_of(turn: Turn) -> Side
    ensures { result ≡ spec.side_of turn }
{
    match turn {
        Turn::Takes => Side::Held,
        Turn::Puts => Side::Wanted,
    }
}

/// The call of an object, a take with own values of zero.
fn plain_call(turn: Turn, object: &Object) -> Call
    ensures { result ≡ places.plain_call turn object.now }
{
    match turn {
        Turn::Takes => Call::Take {
            object: *object,
            mtu: 0,
            mac: Mac([0; 6]),
        },
        Turn::Puts => Call::Put(*object),
    }
}

pub(crate) fn is_due(slots: &IndexMap<ObjectKey, Slot>, turn: Turn, object: &Object) -> bool
    requires { AreSlots slots.now.entries }
    ensures { Has (set_on (spec.side_of turn) slots.now.entries) object.now → result
        ≡ spec.is_due turn (set_on Side.Held slots.now.entries)
        (set_on Side.Wanted slots.now.entries) object.now }
{
    match turn {
        Turn::Takes => is_taken(slots, object),
        Turn::Puts => is_put(slots, object),
    }
}

/// The height by which objects of one kind are ordered.
fn height_of(slots: &IndexMap<ObjectKey, Slot>, side: Side, object: &Object) -> usize
    requires { AreSlots slots.now.entries }
    ensures is { result ≡ height_of (set_on side slots.now.entries) object.now }
    ensures few { result ≤ length slots.now.entries }
{
    match object {
        Object::Link { name, .. } => walks::height(slots, side, name, slots.len()),
        Object::Up { name } => walks::height(slots, side, name, slots.len()),
        _ => 0,
    }
}

/// The number by which objects of one kind are ordered: the greatest height is taken first, the
/// least put.
fn height_number(turn: Turn, most: usize, height: usize) -> usize
    requires { height ≤ most }
    ensures { result ≡ places.height_number_of turn most height }
{
    match turn {
        Turn::Takes => most - height,
        Turn::Puts => height,
    }
}

/// An object with the place of its call.
fn place(slots: &IndexMap<ObjectKey, Slot>, turn: Turn, object: Object) -> Placed
    requires { AreSlots slots.now.entries }
    ensures object { result.object ≡ object }
    ensures place { result.place ≡ places.place_of (length slots.now.entries)
        (set_on Side.Held slots.now.entries) (set_on Side.Wanted slots.now.entries)
        (places.plain_call turn object) }
{
    let call = plain_call(turn, &object);
    let height = height_of(slots, side_of(turn), &object);
    Placed {
        place: CallPlace {
            rank: call.rank(),
            height: height_number(turn, slots.len(), height),
            line: Line::of(&call),
        },
        object,
    }
}

/// The object of a turn in the slot of an index, where it is due.
pub(crate) fn due_at(slots: &IndexMap<ObjectKey, Slot>, turn: Turn, index: usize) -> Option<Placed>
    requires slots { AreSlots slots.now.entries }
    requires within { index < length slots.now.entries }
    ensures { result ≡ places.due_in turn slots.now.entries index }
{
    match on(side_of(turn), &slots[index]) {
        Some(object) => {
            if is_due(slots, turn, &object) {
                Some(place(slots, turn, object))
            } else {
                None
            }
        }
        None => None,
    }
}

/// The later one where it comes before, else the earlier.
fn sooner(earlier: Option<Placed>, later: Option<Placed>) -> Option<Placed>
    ensures { result ≡ places.sooner earlier later }
{
    let Some(one) = earlier else {
        return later;
    };
    let Some(other) = later else {
        return Some(one);
    };
    if other.place < one.place {
        Some(other)
    } else {
        Some(one)
    }
}

/// The first object of a turn. It is in a marked slot.
pub(crate) fn first(slots: &IndexMap<ObjectKey, Slot>, marks: &Bits, turn: Turn) -> Option<Object>
    requires slots { AreSlots slots.now.entries }
    requires marked { AreMarked marks.now slots.now.entries }
    ensures some { IfSome result (spec.IsFirst turn (set_on Side.Held slots.now.entries)
        (set_on Side.Wanted slots.now.entries)) }
    ensures none { IfNone result ((o : Object) → spec.is_due turn
        (set_on Side.Held slots.now.entries) (set_on Side.Wanted slots.now.entries) o ≡ true → ⊥) }
{
    let end = slots.len();
    let mut best: Option<Placed> = None;
    let mut start = 0;
    while let Some(index) = marks.first_between(start, end) {
        best = sooner(best, due_at(slots, turn, index));
        start = index + 1;
    }
    match best {
        Some(placed) => Some(placed.object),
        None => None,
    }
}
