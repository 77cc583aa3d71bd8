//! What comes of each turn is put in the order of its calls once, and is then taken off one after
//! another. It is looked for at the places alone that were touched since, or where something came
//! then.
ghost use Rattle.std.specs.Prelude.{◌≡◌, ◌<◌, ◌≤◌, ◌+◌, ◌-◌, ◌++◌, ◌∷◌, [], ℕ, IfSome, IfNone};
ghost use Rattle.std.specs.Prelude.{OnOk, Some, Contains, length, slice_get, if◌then◌else◌};
ghost use Rattle.std.specs.Prelude.{vec_len, vec_capacity, true, false};
ghost use Rattle.std.specs.List.Sorted.{IsPermutation};
ghost use Rattle.given_objects.specs.Gifts as gifts;
ghost use Rattle.given_objects.specs.Gifts.{Gifts};
ghost use Rattle.given_objects.specs.Inside.{listed};
ghost use Rattle.given_objects.specs.First.{IsFirstGift, NoneDue};
ghost use Rattle.given_objects.specs.Turns.{is_due, call_of};
ghost use Rattle.given_objects.specs.Ordered as spec;
ghost use Rattle.given_objects.specs.Places as coming;
ghost use Rattle.given_objects.specs.Places.{ArePlacesOf, ComeFrom};

use crate::first::{Turn, call_of, is_due};
use crate::gift::{Counts, Gift};
use crate::key::GiftKey;
use crate::line::Line;
use crate::places::{Places, no_places, unlist_place};
use indexmap::IndexMap;
use kern_model::Object;
use plane_io::Memory;
use std::alloc::Global;

/// Where a call stands among others: by its rank, then by the bytes of its line.
#[derive(PartialEq, Eq, PartialOrd, Ord, Drop)]
pub(crate) struct CallPlace {
    pub(crate) rank: u8,
    pub(crate) line: Line,
}

/// An object with the place of its call.
#[derive(Drop)]
pub(crate) struct Placed {
    pub(crate) place: CallPlace,
    pub(crate) object: Object,
}

/// What comes of each turn, the first at the end, while that is kept, and the places at which
/// something may come. There is room for all gifts.
#[derive(Drop)]
pub(crate) struct Order {
    pub(crate) takes: Vec<Placed>,
    pub(crate) puts: Vec<Placed>,
    pub(crate) places: Places,
    pub(crate) is_kept: bool,
}

/// No order. It takes no memory.
pub(crate) fn no_order(alloc: Global) -> Order
    ensures kept { result.is_kept ≡ false }
    ensures places { ArePlacesOf [] result.places }
{
    Order {
        takes: Vec::new(alloc),
        puts: Vec::new(alloc),
        places: no_places(alloc),
        is_kept: false,
    }
}

/// The turn of a call that leaves an object held, or not.
pub(crate) fn turn_of(held: bool) -> Turn
    ensures { result ≡ spec.turn_of held }
{
    if held { Turn::Puts } else { Turn::Takes }
}

/// Makes room for so many calls of each turn, and for so many places.
pub(crate) fn make_room(order: &mut Order, count: usize) -> Result<(), Memory>
    ensures kept { order.new.is_kept ≡ order.old.is_kept }
    ensures ok { OnOk result (spec.HasRoom order.new count) }
    ensures places { (gs : Gifts) → ArePlacesOf gs order.old.places
        → ArePlacesOf gs order.new.places }
    ensures rest { (least : ℕ) → spec.HasRoom order.old least → spec.HasRoom order.new least }
{
    order.takes.reserve(count)?;
    order.puts.reserve(count)?;
    order.places.list.reserve(count)?;
    order.places.flags.reserve(count)?;
    Ok(())
}

/// The gift at a place of a table.
pub(crate) fn gift_at(table: &IndexMap<GiftKey, Counts>, place: usize) -> Gift
    requires { place < length table.now.entries }
    ensures { slice_get (listed table.now.entries) place ≡ Some result }
{
    let (key, counts) = table.get_index(place).unwrap();
    Gift {
        object: key.0,
        givers: counts.givers,
        held: counts.held,
        loses_link: counts.loses_link,
    }
}

/// The gift of an object.
fn gift_of(table: &IndexMap<GiftKey, Counts>, object: &Object) -> Option<Gift>
    requires { gifts.AreGifts (listed table.now.entries) }
    ensures { result ≡ gifts.gift_of (listed table.now.entries) object.now }
{
    let Some(place) = table.get_index_of(&GiftKey(*object)) else {
        return None;
    };
    Some(gift_at(table, place))
}

/// Whether a gift comes in a turn: it is to be taken; or it is to be put, be it after it was taken
/// since its name loses its link.
fn is_coming(turn: Turn, gift: &Gift) -> bool
    ensures { result ≡ spec.is_coming turn gift.now }
{
    match turn {
        Turn::Takes => gift.is_take_due(),
        Turn::Puts => gift.is_given() && (!gift.held || gift.loses_link),
    }
}

/// Whether a gift comes in one turn or the other.
fn comes(gift: &Gift) -> bool
    ensures { result ≡ coming.comes gift.now }
{
    is_coming(Turn::Takes, gift) || is_coming(Turn::Puts, gift)
}

/// The last object of a list that is due, which is the first of its turn.
pub(crate) fn last_due(
    table: &IndexMap<GiftKey, Counts>,
    turn: Turn,
    list: &[Placed],
) -> Option<Object>
    requires gifts { gifts.AreGifts (listed table.now.entries) }
    requires listed { spec.ListsComing turn (listed table.now.entries) list.now }
    ensures some { IfSome result
        (IsFirstGift (is_due turn) (call_of turn) (listed table.now.entries)) }
    ensures none { IfNone result (NoneDue (is_due turn) (listed table.now.entries)) }
{
    let mut left = list.len();
    while left > 0 {
        left -= 1;
        let placed = &list[left];
        if is_still_due(table, turn, &placed.object) {
            return Some(placed.object);
        }
    }
    None
}

/// Whether the gift of an object is due.
fn is_still_due(table: &IndexMap<GiftKey, Counts>, turn: Turn, object: &Object) -> bool
    requires { gifts.AreGifts (listed table.now.entries) }
    ensures { result ≡ spec.of_object (is_due turn) (listed table.now.entries) object.now }
{
    match gift_of(table, object) {
        Some(gift) => is_due(turn, &gift),
        None => false,
    }
}

/// An object with the place of its call.
fn place(turn: Turn, object: Object) -> Placed
    ensures { result ≡ spec.placed turn object }
{
    let call = call_of(turn, &object);
    Placed {
        place: CallPlace {
            rank: call.rank(),
            line: Line::of(&call),
        },
        object,
    }
}

/// One more of a list, where a gift comes in its turn.
fn add(list: &mut Vec<Placed>, turn: Turn, gift: &Gift)
    requires { vec_len list.old < vec_capacity list.old }
    ensures items { list.new.items ≡ spec.with_coming turn list.old.items gift.now }
    ensures size { vec_len list.new ≤ vec_len list.old + 1 }
    ensures capacity { vec_capacity list.new ≡ vec_capacity list.old }
{
    if is_coming(turn, gift) {
        list.push_reserved(place(turn, gift.object));
    }
}

/// Fills a list with what comes in a turn at places of the table.
fn fill(table: &IndexMap<GiftKey, Counts>, turn: Turn, places: &[usize], list: &mut Vec<Placed>)
    requires within { (place : ℕ) → Contains places.now place → place < length table.now.entries }
    requires room { length places.now ≤ vec_capacity list.old }
    ensures coming { spec.HasComing turn (listed table.now.entries) places.now list.new.items }
    ensures capacity { vec_capacity list.new ≡ vec_capacity list.old }
{
    list.clear();
    for place in places {
        add(list, turn, &gift_at(table, *place));
    }
}

/// Sorts a list by the places of its calls, the first at the end.
fn sort(list: &mut Vec<Placed>)
    ensures same { IsPermutation list.old.items list.new.items }
    ensures down { spec.ComeDown list.new.items }
    ensures capacity { vec_capacity list.new ≡ vec_capacity list.old }
{
    list.sort_unstable_by(|one, other| other.place.cmp(&one.place));
}

fn list_coming(
    table: &IndexMap<GiftKey, Counts>,
    turn: Turn,
    places: &Places,
    list: &mut Vec<Placed>,
)
    requires places { ArePlacesOf (listed table.now.entries) places.now }
    requires room { length table.now.entries ≤ vec_capacity list.old }
    ensures listed { spec.ListsComing turn (listed table.now.entries) list.new.items }
    ensures capacity { vec_capacity list.new ≡ vec_capacity list.old }
{
    fill(table, turn, &places.list, list);
    sort(list);
}

/// The place at an index of the list is listed no more, where nothing comes at it.
fn unlist_done(table: &IndexMap<GiftKey, Counts>, places: &mut Places, index: usize)
    requires places { ArePlacesOf (listed table.now.entries) places.old }
    requires within { index < vec_len places.old.list }
    ensures places { ArePlacesOf (listed table.now.entries) places.new }
    ensures size { vec_len places.old.list ≤ vec_len places.new.list + 1 }
    ensures done { ComeFrom (listed table.now.entries) places.old.list.items (index + 1)
        → ComeFrom (listed table.now.entries) places.new.list.items index }
    ensures list_capacity { vec_capacity places.new.list ≡ vec_capacity places.old.list }
    ensures flags_capacity { vec_capacity places.new.flags ≡ vec_capacity places.old.flags }
{
    let gift = gift_at(table, places.list[index]);
    if !comes(&gift) {
        unlist_place(places, index);
    }
}

/// Places at which nothing comes are listed no more.
fn unlist_all_done(table: &IndexMap<GiftKey, Counts>, places: &mut Places)
    requires { ArePlacesOf (listed table.now.entries) places.old }
    ensures places { ArePlacesOf (listed table.now.entries) places.new }
    ensures done { ComeFrom (listed table.now.entries) places.new.list.items 0 }
    ensures list_capacity { vec_capacity places.new.list ≡ vec_capacity places.old.list }
    ensures flags_capacity { vec_capacity places.new.flags ≡ vec_capacity places.old.flags }
{
    let mut left = places.list.len();
    while left > 0 {
        left -= 1;
        unlist_done(table, places, left);
    }
}

/// Puts what comes in order, where it is not yet. It takes no memory, and looks at the listed
/// places alone.
pub(crate) fn put_in_order(table: &IndexMap<GiftKey, Counts>, order: &mut Order)
    requires order { spec.IsOrder order.old (listed table.now.entries) }
    requires places { ArePlacesOf (listed table.now.entries) order.old.places }
    requires room { spec.HasRoom order.old (length table.now.entries) }
    ensures order { spec.IsOrder order.new (listed table.now.entries) }
    ensures places { ArePlacesOf (listed table.now.entries) order.new.places }
    ensures done { order.old.is_kept ≡ false
        → ComeFrom (listed table.now.entries) order.new.places.list.items 0 }
    ensures room { spec.HasRoom order.new (length table.now.entries) }
{
    if order.is_kept {
        return;
    }
    unlist_all_done(table, &mut order.places);
    list_coming(table, Turn::Takes, &order.places, &mut order.takes);
    list_coming(table, Turn::Puts, &order.places, &mut order.puts);
    order.is_kept = true;
}

/// Whether the last of a list does not come any more.
fn ends_done(table: &IndexMap<GiftKey, Counts>, turn: Turn, list: &[Placed]) -> bool
    requires { gifts.AreGifts (listed table.now.entries) }
    ensures { result ≡ true → (p : _) → slice_get list.now (length list.now - 1) ≡ Some p
        → spec.of_object (spec.is_coming turn) (listed table.now.entries) p.object ≡ false }
{
    let Some(placed) = list.last() else {
        return false;
    };
    match gift_of(table, &placed.object) {
        Some(gift) => !is_coming(turn, &gift),
        None => true,
    }
}

/// Takes off the last of a list, where it does not come any more.
fn drop_done(table: &IndexMap<GiftKey, Counts>, turn: Turn, list: &mut Vec<Placed>)
    requires { gifts.AreGifts (listed table.now.entries) }
    ensures listed { spec.ListsComing turn (listed table.now.entries) list.old.items
        → spec.ListsComing turn (listed table.now.entries) list.new.items }
    ensures capacity { vec_capacity list.new ≡ vec_capacity list.old }
{
    if ends_done(table, turn, list) {
        let _done = list.pop();
    }
}

/// Takes off the last of a turn, where it does not come any more.
pub(crate) fn go_on(table: &IndexMap<GiftKey, Counts>, turn: Turn, order: &mut Order)
    requires { gifts.AreGifts (listed table.now.entries) }
    ensures order { spec.IsOrder order.old (listed table.now.entries)
        → spec.IsOrder order.new (listed table.now.entries) }
    ensures takes { vec_capacity order.new.takes ≡ vec_capacity order.old.takes }
    ensures puts { vec_capacity order.new.puts ≡ vec_capacity order.old.puts }
    ensures places { order.new.places ≡ order.old.places }
{
    match turn {
        Turn::Takes => drop_done(table, turn, &mut order.takes),
        Turn::Puts => drop_done(table, turn, &mut order.puts),
    }
}
