//! What an interface needs, and where its request is kept.
ghost use Rattle.std.specs.Prelude.{◌≡◌, ◌<◌, Some, length, slice_get, slice_set};
ghost use Rattle.net_rows.specs.declared.rows.InterfaceRow.{InterfaceRow};
ghost use Rattle.net_rules.specs.Inputs.{facts_of};
ghost use Rattle.known_inputs.specs.Known.{StandOnce};
ghost use Rattle.net_reach.specs.Reach.{IsReachOf};
ghost use Rattle.net_rules.specs.declared.state.InterfaceState.{InterfaceState};
ghost use Rattle.net_states.specs.Counted.{AgreesWith};
ghost use Rattle.state_requests.specs.Asking as spec;

use known_inputs::KnownInputs;
use net_rules::InterfaceRequest;
use net_states::{GraphSettling, Look, States};
use net_view::asks_nothing;

/// What stands once in inputs always does.
pub(crate) fn stand_once(inputs: &KnownInputs)
    ensures { StandOnce inputs.now.inputs }
{
    let _rows = inputs.conf();
}

/// Whether the interface at a place is ready, and a handler serves it.
pub(crate) fn needs_request(
    place: usize,
    inputs: &KnownInputs,
    states: &States,
    settling: &GraphSettling,
) -> bool
    requires place { place < length inputs.now.inputs.conf.interfaces }
    requires reach { IsReachOf inputs.now.inputs states.now.reach }
    requires agrees { AgreesWith inputs.now.inputs settling.now.graph.known }
    ensures needs { (row : InterfaceRow)
        → slice_get inputs.now.inputs.conf.interfaces place ≡ Some row
        → result ≡ spec.needs_request (facts_of inputs.now.inputs) row }
    ensures once { StandOnce inputs.now.inputs }
{
    let look = Look {
        inputs,
        reach: &states.reach,
        graph: &settling.graph,
    };
    let row = &inputs.conf().interfaces.as_slice()[place];
    look.is_ready(row) & !asks_nothing(&row.proto)
}

/// The ask of the interface at a place is at hand, or it is open and has a number.
pub(crate) fn keep_request(
    states: &mut States,
    place: usize,
    spare: Option<InterfaceRequest>,
    number: Option<u64>,
)
    requires list { place < length states.old.list.items }
    requires spare { place < length states.old.spare.items }
    ensures list { (st : InterfaceState) → slice_get states.old.list.items place ≡ Some st
        → states.new.list.items
        ≡ slice_set states.old.list.items place (record st { number = number }) }
    ensures spare { states.new.spare.items ≡ slice_set states.old.spare.items place spare }
    ensures others { states.new
        ≡ record states.old { list = states.new.list; spare = states.new.spare } }
{
    states.spare[place] = spare;
    states.list[place].number = number;
}
