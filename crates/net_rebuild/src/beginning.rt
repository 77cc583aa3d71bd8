//! Interfaces begin anew.
ghost use Rattle.std.specs.Prelude.{◌≡◌, ◌≤◌, ◌<◌, ℕ, List};
ghost use Rattle.net_rules.specs.declared.inputs.Inputs.{Inputs};
ghost use Rattle.net_rules.specs.declared.event.Event.{Event};
ghost use Rattle.net_rules.specs.Moment.{IsHistory};
ghost use Rattle.graph_rules.specs.State.{claims_in};
ghost use Rattle.net_follow.specs.SettlingState.{held_of, IsReady};
ghost use Rattle.net_rules.specs.declared.state.InterfaceState.{InterfaceState};
ghost use Rattle.net_rules.specs.Claims.{claims_of};
ghost use Rattle.net_follow.specs.Beside.{HoldsLower};
ghost use Rattle.net_follow.specs.States.{States};
ghost use Rattle.net_follow.specs.Kept.{AreStatesOf};
ghost use Rattle.net_follow.specs.Counted.{AgreesWith, IsCountedBy};
ghost use Rattle.net_follow.specs.declared.follower.Follower as the_follower;
ghost use Rattle.net_follow.specs.InStep.{inputs_of, IsInStep};
ghost use Rattle.net_rebuild.specs.Rebuild.{IsRebuildOf};

use crate::rebuild::Rebuild;
use net_follow::{Follower, GraphSettling, forget_claims};
use std::sync::ledger::{Blank, Ledger};
use use_counts::Steps;

/// What was made anew takes the place of what was kept, beside a graph that has its rows, ports and
/// devices already. Then all interfaces become what they are, and each gift is told whether its
/// name loses its link. It takes no memory.
pub(crate) fn begin<L: Ledger>(follower: &mut Follower, made: Rebuild, blank: Blank)
    requires name { blank.name ≡ L.name }
    requires parts { blank.parts ≡ L.parts }
    requires some { 0 < L.parts }
    requires rebuild { (before : the_follower.Follower) × (event : Event)
        × IsRebuildOf before event made
        × (before.settling.gifts ≡ follower.old.settling.gifts) }
    requires agrees { AgreesWith made.inputs.inputs follower.old.settling.graph.known }
    requires claims { (name : List ℕ) → claims_in follower.old.settling.graph.known name
        ≤ claims_of follower.old.states.list.items name }
    requires lower { HoldsLower follower.old.settling.graph }
    requires history { IsHistory (record {
      inputs = made.inputs.inputs;
      held = held_of follower.old.settling;
    }) }
    ensures step { IsInStep follower.new }
    ensures inputs { inputs_of follower.new ≡ made.inputs.inputs }
    ensures told { follower.new.notices.items ≡ made.notices.items }
    ensures held { held_of follower.new.settling ≡ held_of follower.old.settling }
    ensures loads { follower.new.settling.graph.loads ≡ follower.old.settling.graph.loads }
{
    let mut steps = Steps::<L>::new(blank);
    forget_claims(
        &mut follower.settling.graph,
        follower.states.list.as_slice(),
        &mut steps,
    );
    replace(follower, made);
    follower
        .states
        .refresh_all(&follower.inputs, &mut follower.settling, &mut steps);
    look(&mut follower.settling);
}

// What was made anew takes the place of what was kept.
fn replace(follower: &mut Follower, made: Rebuild)
    ensures { follower.new ≡ record {
      inputs = made.inputs;
      settling = record follower.old.settling { gifts = made.gifts };
      states = made.states;
      touched = made.touched;
      notices = made.notices;
    } }
{
    let Rebuild {
        inputs,
        states,
        gifts,
        notices,
        touched,
        ..
    } = made;
    follower.settling.gifts = gifts;
    follower.inputs = inputs;
    follower.states = states;
    follower.touched = touched;
    follower.notices = notices;
}

// Each gift is told whether its name loses its link. So what is held and wanted is ready to be
// settled, where it is counted over what interfaces are.
fn look(settling: &mut GraphSettling)
    requires { HoldsLower settling.old.graph }
    ensures graph { settling.new.graph ≡ settling.old.graph }
    ensures held { held_of settling.new ≡ held_of settling.old }
    ensures counted { (inputs : Inputs) (states : List InterfaceState)
        → IsCountedBy inputs states settling.old → IsCountedBy inputs states settling.new }
    ensures ready { (inputs : Inputs) (states : States)
        → IsHistory (record { inputs = inputs; held = held_of settling.old })
        → AreStatesOf inputs states → IsCountedBy inputs states.list.items settling.old
        → IsReady settling.new }
{
    settling.view_lost_links();
    settling.graph.is_kept();
    let _count = settling.gifts.len();
}
