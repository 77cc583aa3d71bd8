//! Requests that are opened.
ghost use Rattle.std.specs.Prelude.{◌≡◌, ◌≤◌, ◌<◌, ◌+◌, ◌^◌, ◌++◌, ◌∷◌, [], ℕ, List, true, Some};
ghost use Rattle.std.specs.Prelude.{None, fold, length, slice_get, slice_set, vec_capacity};
ghost use Rattle.std.specs.VecDeque.{deque_len, deque_capacity};
ghost use Rattle.net_rows.specs.declared.rows.InterfaceRow.{InterfaceRow};
ghost use Rattle.net_rules.specs.Numbers.{AreRising};
ghost use Rattle.net_rules.specs.Inputs.{facts_of};
ghost use Rattle.net_rules.specs.declared.state.InterfaceState.{InterfaceState};
ghost use Rattle.net_states.specs.Kept.{IsTied};
ghost use Rattle.net_states.specs.Counted.{AgreesWith};
ghost use Rattle.asked_places.specs.Touched.{has};
ghost use Rattle.asked_places.specs.Opening.{opened_after, opened_notices, told_of_all};
ghost use Rattle.state_requests.specs.Asking as spec;
ghost use Rattle.state_requests.specs.Asking.{AreBetween};

use crate::asking::{keep_request, needs_request};
use crate::telling::tell_one;
use known_inputs::KnownInputs;
use net_rules::{InterfaceRequest, Notice};
use net_states::{GraphSettling, States};
use std::collections::VecDeque;

/// Interfaces at some places that need a request and have none get one, and it is told.
pub(crate) fn open_requests(
    places: &[usize],
    inputs: &mut KnownInputs,
    states: &mut States,
    settling: &GraphSettling,
    notices: &mut VecDeque<Notice>,
)
    requires places { AreRising 0 (length inputs.old.inputs.conf.interfaces) places.now }
    requires between { AreBetween inputs.old.inputs places.now states.old settling.now }
    requires next { inputs.old.inputs.next + length places.now ≤ 2 ^ 63 }
    requires room { deque_len notices.old + length places.now ≤ deque_capacity notices.old }
    ensures inputs { inputs.new
        ≡ record inputs.old { inputs = fold opened_after inputs.old.inputs places.now } }
    ensures between { AreBetween inputs.new.inputs places.now states.new settling.now }
    ensures told { notices.new.items
        ≡ notices.old.items ++ told_of_all inputs.old.inputs places.now }
    ensures capacity { deque_capacity notices.new ≡ deque_capacity notices.old }
    ensures room { vec_capacity states.new.lost ≡ vec_capacity states.old.lost }
{
    for place in places {
        open_request(*place, inputs, states, settling, notices);
    }
}

// The interface at a place gets a request where it needs one and has none, and it is told.
fn open_request(
    place: usize,
    inputs: &mut KnownInputs,
    states: &mut States,
    settling: &GraphSettling,
    notices: &mut VecDeque<Notice>,
)
    requires place { place < length inputs.old.inputs.conf.interfaces }
    requires tied { IsTied inputs.old.inputs states.old }
    requires agrees { AgreesWith inputs.old.inputs settling.now.graph.known }
    requires next { inputs.old.inputs.next < 2 ^ 63 }
    requires room { deque_len notices.old < deque_capacity notices.old }
    ensures inputs { inputs.new
        ≡ record inputs.old { inputs = opened_after inputs.old.inputs place } }
    ensures between { (places : List ℕ) → has places place ≡ true
        → AreBetween inputs.old.inputs places states.old settling.now
        → AreBetween inputs.new.inputs places states.new settling.now }
    ensures told { notices.new.items
        ≡ notices.old.items ++ opened_notices inputs.old.inputs place }
    ensures len { deque_len notices.new ≤ deque_len notices.old + 1 }
    ensures capacity { deque_capacity notices.new ≡ deque_capacity notices.old }
    ensures lost { states.new.lost ≡ states.old.lost }
{
    if !lacks_request(place, inputs, states, settling) {
        return;
    }
    let opened = Some((place, states.list[place].device));
    let Some(mut request) = take_request(states, place) else {
        return;
    };
    request.device = states.list[place].device;
    let number = inputs.open(request);
    keep_request(states, place, None, Some(number));
    tell_one(number, opened, notices);
}

// Whether the first row of a name stands at a place, has no open request, and needs one.
fn lacks_request(
    place: usize,
    inputs: &KnownInputs,
    states: &States,
    settling: &GraphSettling,
) -> bool
    requires place { place < length inputs.now.inputs.conf.interfaces }
    requires tied { IsTied inputs.now.inputs states.now }
    requires agrees { AgreesWith inputs.now.inputs settling.now.graph.known }
    ensures { (row : InterfaceRow) (st : InterfaceState)
        → slice_get inputs.now.inputs.conf.interfaces place ≡ Some row
        → slice_get states.now.list.items place ≡ Some st
        → result ≡ spec.lacks_request (facts_of inputs.now.inputs) row st }
{
    let state = states.list[place];
    if !state.is_first | state.number.is_some() {
        return false;
    }
    needs_request(place, inputs, states, settling)
}

// The ask of the interface at a place that is at hand, if there is one, is taken.
fn take_request(states: &mut States, place: usize) -> Option<InterfaceRequest>
    requires { place < length states.old.spare.items }
    ensures taken { slice_get states.old.spare.items place ≡ Some result }
    ensures left { states.new.spare.items ≡ slice_set states.old.spare.items place None }
    ensures others { states.new ≡ record states.old { spare = states.new.spare } }
{
    states.spare[place].take()
}
