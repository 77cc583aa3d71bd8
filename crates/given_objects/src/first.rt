//! The gift that is taken first, and the one that is put first.
ghost use Rattle.std.specs.Prelude.{◌≡◌, ◌&&◌, IfSome, IfNone, Some, true};
ghost use Rattle.std.specs.Ordering.{nat_cmp, ordering_then};
ghost use Rattle.std.specs.Cmp.Lexicographic.{slice_cmp};
ghost use Rattle.kern_model.specs.Line.{line_of};
ghost use Rattle.kern_model.specs.CallOrder.{rank};
ghost use Rattle.kern_calls.specs.Upper.{is_upper};
ghost use Rattle.given_objects.specs.First.{IsFirstGift, NoneDue};
ghost use Rattle.given_objects.specs.Turns as spec;

use crate::form::has_form;
use crate::gift::Gift;
use crate::given::GivenObjects;
use kern_model::{Call, Mac, Object, print_call};
use std::cmp::Ordering;

/// What is called for: takes, or puts.
#[derive(Clone, Copy)]
pub(crate) enum Turn {
    Takes,
    Puts,
}

/// Whether a turn calls for a gift.
pub(crate) fn is_due(turn: Turn, gift: &Gift) -> bool
    ensures { result ≡ spec.is_due turn gift.now }
{
    match turn {
        Turn::Takes => gift.is_take_due(),
        Turn::Puts => gift.is_put_due(),
    }
}

/// The call of an object, a take with own values of zero.
pub(crate) fn call_of(turn: Turn, object: &Object) -> Call
    ensures { result ≡ spec.call_of turn object.now }
{
    match turn {
        Turn::Takes => Call::Take {
            object: *object,
            mtu: 0,
            mac: Mac([0; 6]),
        },
        Turn::Puts => Call::Put(*object),
    }
}

/// How the lines of two calls compare.
fn line_order(one: &Call, other: &Call) -> Ordering
    ensures { result ≡ slice_cmp nat_cmp (line_of one.now) (line_of other.now) }
{
    let mut left = [0u8; 256];
    let mut right = [0u8; 256];
    let left_size = print_call(one, &mut left);
    let right_size = print_call(other, &mut right);
    left[..left_size].cmp(&right[..right_size])
}

/// How two calls compare by their ranks, and then by their lines.
fn call_order(one: &Call, other: &Call) -> Ordering
    ensures { result ≡ ordering_then (nat_cmp (rank one.now) (rank other.now))
        (slice_cmp nat_cmp (line_of one.now) (line_of other.now)) }
{
    match one.rank().cmp(&other.rank()) {
        Ordering::Less => Ordering::Less,
        Ordering::Equal => line_order(one, other),
        Ordering::Greater => Ordering::Greater,
    }
}

/// Whether the call of an address or a route comes before that of another.
fn comes_before(turn: Turn, one: &Object, other: &Object) -> bool
    requires one { is_upper one.now ≡ true }
    requires other { is_upper other.now ≡ true }
    ensures { result ≡ spec.comes_before turn one.now other.now }
{
    has_form(one);
    has_form(other);
    call_order(&call_of(turn, one), &call_of(turn, other)).is_lt()
}

/// An object where it comes before the first so far, else that one.
fn nearer(turn: Turn, best: Option<Object>, object: Object) -> Option<Object>
    requires best { IfSome best (λ o. is_upper o ≡ true) }
    requires object { is_upper object ≡ true }
    ensures { result ≡ spec.nearer turn best object }
{
    let Some(first) = best else {
        return Some(object);
    };
    if comes_before(turn, &object, &first) {
        Some(object)
    } else {
        Some(first)
    }
}

/// The object of a gift where it is due and comes before the first so far, else that one.
fn sooner(turn: Turn, best: Option<Object>, gift: &Gift) -> Option<Object>
    requires best { IfSome best (λ o. is_upper o ≡ true) }
    requires gift { is_upper gift.now.object ≡ true }
    ensures { result ≡ spec.sooner turn best gift.now }
{
    if is_due(turn, gift) {
        nearer(turn, best, gift.object)
    } else {
        best
    }
}

/// The object of the first gift that a turn calls for.
pub(crate) fn first(gifts: &GivenObjects, turn: Turn) -> Option<Object>
    ensures some { IfSome result (IsFirstGift (spec.is_due turn) (spec.call_of turn) gifts.now) }
    ensures none { IfNone result (NoneDue (spec.is_due turn) gifts.now) }
{
    let mut best: Option<Object> = None;
    for place in 0..gifts.len() {
        best = sooner(turn, best, &gifts.gift(place));
    }
    best
}
