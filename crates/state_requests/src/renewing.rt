ghost use Rattle.std.specs.Prelude.{◌≡◌, ◌≤◌, ◌+◌, ◌*◌, ◌^◌, ◌++◌, length, vec_capacity};
ghost use Rattle.std.specs.VecDeque.{deque_len, deque_capacity};
ghost use Rattle.net_rules.specs.Numbers.{AreRising};
ghost use Rattle.net_rules.specs.Touched.{asked_of};
ghost use Rattle.asked_places.specs.Touched.{is_touched};
ghost use Rattle.touch_laws.specs.Staying.{told_of};
ghost use Rattle.net_states.specs.Kept.{IsTied, AreStatesOf, FollowBut};
ghost use Rattle.net_states.specs.Counted.{IsCountedBy, DiffersInCounts};

use crate::asking::stand_once;
use crate::losing::lose_requests;
use crate::opening::open_requests;
use crate::telling::tell_lost;
use known_inputs::KnownInputs;
use net_rules::Notice;
use net_states::{GraphSettling, States};
use std::collections::VecDeque;
use std::sync::ledger::Ledger;
use use_counts::Steps;

/// The interfaces at some places follow what happened, where all others are what they are by the
/// inputs: what they give and claim, and their requests. Asks that are lost are told first, then
/// those that are opened. It takes no memory.
pub fn renew<L: Ledger>(
    places: &[usize],
    inputs: &mut KnownInputs,
    settling: &mut GraphSettling,
    states: &mut States,
    notices: &mut VecDeque<Notice>,
    steps: &mut Steps<L>,
)
    requires places { AreRising 0 (length inputs.old.inputs.conf.interfaces) places.now }
    requires tied { IsTied inputs.old.inputs states.old }
    requires follow { FollowBut inputs.old.inputs places.now states.old.list.items }
    requires counted { IsCountedBy inputs.old.inputs states.old.list.items settling.old }
    requires next { inputs.old.inputs.next + length places.now ≤ 2 ^ 63 }
    requires room { deque_len notices.old + 2 * length places.now ≤ deque_capacity notices.old }
    ensures inputs { inputs.new ≡ record inputs.old {
      inputs = asked_of (is_touched inputs.old.inputs.conf.interfaces places.now) inputs.old.inputs;
    } }
    ensures told { notices.new.items ≡ notices.old.items
        ++ told_of (is_touched inputs.old.inputs.conf.interfaces places.now) inputs.old.inputs }
    ensures states { AreStatesOf inputs.new.inputs states.new }
    ensures counted { IsCountedBy inputs.new.inputs states.new.list.items settling.new }
    ensures stays { DiffersInCounts settling.old settling.new }
    ensures capacity { deque_capacity notices.new ≡ deque_capacity notices.old }
{
    states.let_down_all(places, inputs, settling, steps);
    stand_once(inputs);
    lose_requests(places, inputs, states, settling);
    tell_lost(&mut states.lost, notices);
    open_requests(places, inputs, states, settling, notices);
    states.refresh(places, inputs, settling, steps);
}
