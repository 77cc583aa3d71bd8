//! Names that fall under what is given, and what goes with a device.
ghost use Rattle.std.specs.Prelude.{◌≡◌, ◌≤◌, ◌+◌, ◌*◌, ◌<◌, length, slice_get, slice_set, Some};
ghost use Rattle.std.specs.Prelude.{true};
ghost use Rattle.given_objects.specs.declared.gift.Gift.{Gift};
ghost use Rattle.graph_rules.specs.After.{name_at, left_by, absent_after};
ghost use Rattle.graph_rules.specs.Conditions.{IsId};
ghost use Rattle.graph_rules.specs.Edges.{changed_edges};
ghost use Rattle.graph_settle.specs.SettlingState.{held_of, IsReady};
ghost use Rattle.graph_settle.specs.Leaving as spec;
ghost use Rattle.graph_settle.specs.Leaving.{looked_at, all_looked_at, left_gift, left_gifts};

use crate::next::are_gifts;
use crate::settling::GraphSettling;
use dev_graph::Graph;
use given_objects::{Gift, GivenObjects};
use graph_rules::DevId;
use kern_model::Object;
use std::sync::ledger::Ledger;
use use_counts::Steps;

impl GraphSettling {
    /// Each gift is told whether its name loses its link. From now on one may fall.
    pub fn view_lost_links(&mut self)
        ensures gifts { self.new.gifts ≡ all_looked_at self.old.graph self.old.gifts }
        ensures may_lose_link { self.new.may_lose_link ≡ true }
        ensures graph { self.new.graph ≡ self.old.graph }
    {
        for place in 0..self.gifts.len() {
            look_at(&mut self.gifts, place, &self.graph);
        }
        self.may_lose_link = true;
    }

    /// The device of an id is gone, and what is held on it with it. One that is not there stays so,
    /// and what is held too.
    pub fn leave<L: Ledger>(&mut self, id: DevId, steps: &mut Steps<L>)
        requires within { IsId self.old.graph id.0 }
        requires ready { IsReady self.old }
        ensures held { let named = name_at self.old.graph.known.names id.0 in
            held_of self.new ≡ left_by named.device named.name (held_of self.old) }
        ensures graph { self.new.graph ≡ absent_after self.old.graph id.0 }
        ensures gifts { self.new.gifts ≡ left_gifts self.new.graph self.old.gifts }
        ensures may_lose_link { self.new.may_lose_link ≡ self.old.may_lose_link }
        ensures cost { steps.new ≤ steps.old
            + (1 + 2 * changed_edges self.old.graph.known self.new.graph.known) }
    {
        are_gifts(&self.gifts);
        self.graph.set_absent(id, steps);
        for place in 0..self.gifts.len() {
            let_go(&mut self.gifts, place, &self.graph);
        }
    }
}

/// The gift at a place is told whether its name loses its link.
fn look_at(gifts: &mut GivenObjects, place: usize, graph: &Graph)
    requires { place < length gifts.old }
    ensures { (g : Gift) → slice_get gifts.old place ≡ Some g
        → gifts.new ≡ slice_set gifts.old place (looked_at graph.now g) }
{
    let loses_link = graph.loses_link(&gifts.gift(place).object.name());
    gifts.note_lost_link(place, loses_link);
}

/// The gift at a place is held no longer where its name is not up.
fn let_go(gifts: &mut GivenObjects, place: usize, graph: &Graph)
    requires { place < length gifts.old }
    ensures { (g : Gift) → slice_get gifts.old place ≡ Some g
        → gifts.new ≡ slice_set gifts.old place (left_gift graph.now g) }
{
    are_gifts(gifts);
    let gift = gifts.gift(place);
    if is_left(&gift, graph) {
        gifts.note(&gift.object, false);
    }
}

/// Whether a gift is held and its name is not up.
fn is_left(gift: &Gift, graph: &Graph) -> bool
    ensures { result ≡ spec.is_left graph.now gift.now }
{
    let up = Object::Up {
        name: gift.object.name(),
    };
    gift.held && !graph.held(&up)
}
