//! Touched interfaces follow what happened.
ghost use Rattle.std.specs.Prelude.{◌≡◌, ◌≤◌, ◌∷◌, [], List, length, true, false, vec_capacity};
ghost use Rattle.net_rules.specs.declared.inputs.Inputs.{Inputs};
ghost use Rattle.net_rules.specs.Moment.{IsHistory};
ghost use Rattle.net_rules.specs.Touched.{asked_of};
ghost use Rattle.touch_laws.specs.Staying.{told_of};
ghost use Rattle.net_rules.specs.declared.state.InterfaceState.{InterfaceState};
ghost use Rattle.net_reach.specs.Reach.{IsReachOf, AreTouched};
ghost use Rattle.state_requests.specs.SettlingState.{held_of, IsReady};
ghost use Rattle.state_requests.specs.Leaving.{all_looked_at};
ghost use Rattle.state_requests.specs.States.{States};
ghost use Rattle.state_requests.specs.Kept.{AreStatesOf};
ghost use Rattle.state_requests.specs.Counted.{IsCountedBy};
ghost use Rattle.net_follow.specs.InStep.{inputs_of, touched_by, HasRoom, IsCalm, IsMoving};

use crate::follower::Follower;
use kern_model::DevName;
use net_reach::Reach;
use state_requests::{GraphSettling, renew};
use std::sync::ledger::Ledger;
use use_counts::Steps;

impl Follower {
    /// The touched interfaces follow what the inputs and the graph know. Where a name may fall,
    /// each gift is told whether its name does.
    pub(crate) fn follow<L: Ledger>(&mut self, steps: &mut Steps<L>)
        requires { IsMoving self.old }
        ensures inputs { self.new.inputs ≡ record self.old.inputs {
          inputs = asked_of (touched_by self.old) (inputs_of self.old);
        } }
        ensures told { self.new.notices.items ≡ told_of (touched_by self.old) (inputs_of self.old) }
        ensures states { AreStatesOf (inputs_of self.new) self.new.states }
        ensures counted { IsCountedBy (inputs_of self.new) self.new.states.list.items
            self.new.settling }
        ensures held { held_of self.new.settling ≡ held_of self.old.settling }
        ensures loads { self.new.settling.graph.loads ≡ self.old.settling.graph.loads }
        ensures ready { IsHistory (record {
          inputs = inputs_of self.new;
          held = held_of self.new.settling;
        }) → IsReady self.new.settling }
        ensures room { HasRoom self.new }
    {
        renew(
            &self.touched,
            &mut self.inputs,
            &mut self.settling,
            &mut self.states,
            &mut self.notices,
            steps,
        );
        look(&mut self.settling);
    }
}

/// Where a name may fall, each gift is told whether its name does. So what is held and wanted is
/// ready to be settled, where it is counted over what interfaces are.
pub(crate) fn look(settling: &mut GraphSettling)
    requires { IsCalm settling.old }
    ensures held { held_of settling.new ≡ held_of settling.old }
    ensures loads { settling.new.graph.loads ≡ settling.old.graph.loads }
    ensures counted { (inputs : Inputs) (states : List InterfaceState)
        → IsCountedBy inputs states settling.old → IsCountedBy inputs states settling.new }
    ensures ready { (inputs : Inputs) (states : States)
        → IsHistory (record { inputs = inputs; held = held_of settling.new })
        → AreStatesOf inputs states → IsCountedBy inputs states.list.items settling.new
        → IsReady settling.new }
{
    view_lost_links(settling);
    settling.graph.is_kept();
    let _count = settling.gifts.len();
}

// Where a name may fall, each gift is told whether its name does.
fn view_lost_links(settling: &mut GraphSettling)
    ensures graph { settling.new.graph ≡ settling.old.graph }
    ensures may_lose_link { settling.new.may_lose_link ≡ settling.old.may_lose_link }
    ensures looked { settling.old.may_lose_link ≡ true
        → settling.new.gifts ≡ all_looked_at settling.old.graph settling.old.gifts }
    ensures quiet { settling.old.may_lose_link ≡ false → settling.new.gifts ≡ settling.old.gifts }
{
    if settling.may_lose_link {
        settling.view_lost_links();
    }
}

/// The places of the interfaces that something touches that happens to a name, rising.
pub(crate) fn touch(reach: &mut Reach, touched: &mut Vec<usize>, name: &DevName)
    requires room { (inputs : Inputs) × IsReachOf inputs reach.old
        × (length inputs.conf.interfaces ≤ vec_capacity touched.old) }
    ensures touched { (inputs : Inputs) → IsReachOf inputs reach.old
        → AreTouched inputs name.now touched.new.items }
    ensures reach { (inputs : Inputs) → IsReachOf inputs reach.old → IsReachOf inputs reach.new }
    ensures capacity { vec_capacity touched.new ≡ vec_capacity touched.old }
{
    reach.touch_above(name);
    put_places(touched, reach.visit.touched.places());
}

/// One interface is touched.
pub(crate) fn touch_one(touched: &mut Vec<usize>, place: usize)
    requires { 1 ≤ vec_capacity touched.old }
    ensures touched { touched.new.items ≡ place ∷ [] }
    ensures capacity { vec_capacity touched.new ≡ vec_capacity touched.old }
{
    touched.clear();
    touched.push_reserved(place);
}

// Places take the place of others, in the same memory.
fn put_places(list: &mut Vec<usize>, places: &[usize])
    requires { length places.now ≤ vec_capacity list.old }
    ensures list { list.new.items ≡ places.now }
    ensures capacity { vec_capacity list.new ≡ vec_capacity list.old }
{
    list.clear();
    for place in places {
        list.push_reserved(*place);
    }
}
