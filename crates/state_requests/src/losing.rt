//! Requests that are lost.
ghost use Rattle.std.specs.Prelude.{◌≡◌, ◌<◌, ◌∷◌, [], ◌++◌, ℕ, List, true, length, option_to_list};
ghost use Rattle.std.specs.Prelude.{vec_len, vec_capacity};
ghost use Rattle.std.specs.Option.{option_and_then};
ghost use Rattle.net_rules.specs.Numbers.{AreRising};
ghost use Rattle.net_states.specs.Kept.{IsTied};
ghost use Rattle.net_states.specs.Counted.{AgreesWith};
ghost use Rattle.asked_places.specs.Touched.{has};
ghost use Rattle.asked_places.specs.Losing.{lost_at, lost_at_places, left_at};
ghost use Rattle.state_requests.specs.Asking.{AreBetween};

use crate::asking::{keep_request, needs_request};
use kern_model::DevName;
use known_inputs::KnownInputs;
use net_rules::{Answer, OpenInterface};
use net_states::{GraphSettling, States};

/// The requests of the interfaces at some places are lost that are no longer needed. Their numbers
/// are noted.
pub(crate) fn lose_requests(
    places: &[usize],
    inputs: &mut KnownInputs,
    states: &mut States,
    settling: &GraphSettling,
)
    requires places { AreRising 0 (length inputs.old.inputs.conf.interfaces) places.now }
    requires between { AreBetween inputs.old.inputs places.now states.old settling.now }
    ensures inputs { inputs.new
        ≡ record inputs.old { inputs = left_at inputs.old.inputs places.now } }
    ensures between { AreBetween inputs.new.inputs places.now states.new settling.now }
    ensures lost { states.new.lost.items ≡ lost_at_places inputs.old.inputs places.now }
    ensures room { vec_capacity states.new.lost ≡ vec_capacity states.old.lost }
{
    states.lost.clear();
    for place in places {
        let lost = lose_request(*place, inputs, states, settling);
        note_lost(states, lost);
    }
}

// The number of a request that was lost is noted.
fn note_lost(states: &mut States, number: Option<u64>)
    requires { vec_len states.old.lost < vec_capacity states.old.lost }
    ensures items { states.new.lost.items ≡ states.old.lost.items ++ option_to_list number }
    ensures room { vec_capacity states.new.lost ≡ vec_capacity states.old.lost }
    ensures others { states.new ≡ record states.old { lost = states.new.lost } }
{
    if let Some(number) = number {
        states.lost.push_reserved(number);
    }
}

// The ask of the interface at a place is lost where it is open and no longer needed. It is at hand
// again.
fn lose_request(
    place: usize,
    inputs: &mut KnownInputs,
    states: &mut States,
    settling: &GraphSettling,
) -> Option<u64>
    requires place { place < length inputs.old.inputs.conf.interfaces }
    requires tied { IsTied inputs.old.inputs states.old }
    requires agrees { AgreesWith inputs.old.inputs settling.now.graph.known }
    ensures inputs { inputs.new
        ≡ record inputs.old { inputs = left_at inputs.old.inputs (place ∷ []) } }
    ensures number { result ≡ lost_at inputs.old.inputs place }
    ensures between { (places : List ℕ) → has places place ≡ true
        → AreBetween inputs.old.inputs places states.old settling.now
        → AreBetween inputs.new.inputs places states.new settling.now }
    ensures lost { states.new.lost ≡ states.old.lost }
{
    if needs_request(place, inputs, states, settling) {
        return None;
    }
    let Some(number) = states.list[place].number else {
        return None;
    };
    let Some(closed) = inputs.close(number) else {
        return None;
    };
    let OpenInterface {
        request,
        answer,
        ..
    } = closed;
    states
        .reach
        .set_l3_device(place, l3_device_told(&answer), None);
    keep_request(states, place, Some(request), None);
    Some(number)
}

// The layer-3 device that an answer told.
fn l3_device_told(answer: &Option<Answer>) -> Option<DevName>
    ensures { result ≡ option_and_then (λ answer. answer.device) answer.now }
{
    match answer {
        Some(answer) => answer.device,
        None => None,
    }
}
