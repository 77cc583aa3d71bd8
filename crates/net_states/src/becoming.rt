//! Interfaces become what they are by the inputs. Claims and gifts move with them. None of this
//! takes memory.
ghost use Rattle.std.specs.Prelude.{◌≡◌, ◌<◌, ◌≤◌, ◌+◌, ◌^◌, ℕ, Contains, Some, fold, length};
ghost use Rattle.std.specs.Prelude.{slice_get, slice_set, true};
ghost use Rattle.kern_model.specs.declared.object.Object.{Object};
ghost use Rattle.net_rows.specs.declared.rows.InterfaceRow.{InterfaceRow};
ghost use Rattle.net_rules.specs.Inputs.{facts_of};
ghost use Rattle.given_objects.specs.Gifts.{givers_of};
ghost use Rattle.given_objects.specs.Changes.{given_once_more, given_once_less};
ghost use Rattle.net_reach.specs.Reach.{IsReachOf};
ghost use Rattle.net_rules.specs.declared.state.InterfaceState.{InterfaceState};
ghost use Rattle.net_gifts.specs.Giving.{times_in, gives, HavePlaces};
ghost use Rattle.net_states.specs.Kept.{IsTied, AreStatesOf, FollowBut, AreIdleAt};
ghost use Rattle.net_states.specs.Counted.{IsCountedBy, DiffersInCounts};
ghost use Rattle.net_states.specs.Becoming as spec;
ghost use Rattle.net_states.specs.Becoming.{CanBecome, IsNext, Follows};

use crate::states::States;
use claim_moves::move_claims;
use graph_settle::GraphSettling;
use known_inputs::KnownInputs;
use net_looks::Look;
use net_rules::InterfaceState;
use std::sync::ledger::Ledger;
use use_counts::Steps;

impl States {
    /// The interface at a place gives nothing and claims nothing any more.
    pub fn let_down<L: Ledger>(
        &mut self,
        place: usize,
        inputs: &KnownInputs,
        settling: &mut GraphSettling,
        steps: &mut Steps<L>,
    )
        requires place { place < length inputs.now.inputs.conf.interfaces }
        requires tied { IsTied inputs.now.inputs self.old }
        requires counted { IsCountedBy inputs.now.inputs self.old.list.items settling.old }
        ensures tied { IsTied inputs.now.inputs self.new }
        ensures counted { IsCountedBy inputs.now.inputs self.new.list.items settling.new }
        ensures list { (st : InterfaceState) → slice_get self.old.list.items place ≡ Some st
            → self.new.list.items ≡ slice_set self.old.list.items place (spec.idle st) }
        ensures kept { self.new ≡ record self.old { list = self.new.list } }
        ensures stays { DiffersInCounts settling.old settling.new }
    {
        let new = idle(&self.list[place]);
        self.put_state(place, new, inputs, settling, steps);
    }

    /// The interfaces at some places give nothing and claim nothing any more.
    pub fn let_down_all<L: Ledger>(
        &mut self,
        places: &[usize],
        inputs: &KnownInputs,
        settling: &mut GraphSettling,
        steps: &mut Steps<L>,
    )
        requires places { (place : ℕ) → Contains places.now place
            → place < length inputs.now.inputs.conf.interfaces }
        requires tied { IsTied inputs.now.inputs self.old }
        requires counted { IsCountedBy inputs.now.inputs self.old.list.items settling.old }
        ensures tied { IsTied inputs.now.inputs self.new }
        ensures counted { IsCountedBy inputs.now.inputs self.new.list.items settling.new }
        ensures idle { AreIdleAt places.now self.new.list.items }
        ensures follow { FollowBut inputs.now.inputs places.now self.old.list.items
            → FollowBut inputs.now.inputs places.now self.new.list.items }
        ensures kept { self.new ≡ record self.old { list = self.new.list } }
        ensures stays { DiffersInCounts settling.old settling.new }
    {
        for place in places {
            self.let_down(*place, inputs, settling, steps);
        }
    }

    /// The interfaces at some places become what they are by the inputs, where all others are that.
    pub fn refresh<L: Ledger>(
        &mut self,
        places: &[usize],
        inputs: &KnownInputs,
        settling: &mut GraphSettling,
        steps: &mut Steps<L>,
    )
        requires places { (place : ℕ) → Contains places.now place
            → place < length inputs.now.inputs.conf.interfaces }
        requires tied { IsTied inputs.now.inputs self.old }
        requires counted { IsCountedBy inputs.now.inputs self.old.list.items settling.old }
        requires follow { FollowBut inputs.now.inputs places.now self.old.list.items }
        ensures states { AreStatesOf inputs.now.inputs self.new }
        ensures counted { IsCountedBy inputs.now.inputs self.new.list.items settling.new }
        ensures kept { self.new ≡ record self.old { list = self.new.list } }
        ensures stays { DiffersInCounts settling.old settling.new }
    {
        for place in places {
            self.refresh_one(*place, inputs, settling, steps);
        }
    }

    /// All interfaces become what they are by the inputs.
    pub fn refresh_all<L: Ledger>(
        &mut self,
        inputs: &KnownInputs,
        settling: &mut GraphSettling,
        steps: &mut Steps<L>,
    )
        requires tied { IsTied inputs.now.inputs self.old }
        requires counted { IsCountedBy inputs.now.inputs self.old.list.items settling.old }
        ensures states { AreStatesOf inputs.now.inputs self.new }
        ensures counted { IsCountedBy inputs.now.inputs self.new.list.items settling.new }
        ensures kept { self.new ≡ record self.old { list = self.new.list } }
        ensures stays { DiffersInCounts settling.old settling.new }
    {
        for place in 0..self.list.len() {
            self.refresh_one(place, inputs, settling, steps);
        }
    }

    /// The interface at a place becomes what it is by the inputs.
    fn refresh_one<L: Ledger>(
        &mut self,
        place: usize,
        inputs: &KnownInputs,
        settling: &mut GraphSettling,
        steps: &mut Steps<L>,
    )
        requires place { place < length inputs.now.inputs.conf.interfaces }
        requires tied { IsTied inputs.now.inputs self.old }
        requires counted { IsCountedBy inputs.now.inputs self.old.list.items settling.old }
        ensures tied { IsTied inputs.now.inputs self.new }
        ensures counted { IsCountedBy inputs.now.inputs self.new.list.items settling.new }
        ensures follows { Follows inputs.now.inputs place self.old.list.items self.new.list.items }
        ensures kept { self.new ≡ record self.old { list = self.new.list } }
        ensures stays { DiffersInCounts settling.old settling.new }
    {
        if self.list[place].is_first {
            let new = self.next_state(place, inputs, settling);
            self.put_state(place, new, inputs, settling, steps);
        }
    }

    // What the first row of a name, at this place, is by the inputs.
    fn next_state(
        &self,
        place: usize,
        inputs: &KnownInputs,
        settling: &GraphSettling,
    ) -> InterfaceState
        requires place { place < length inputs.now.inputs.conf.interfaces }
        requires tied { IsTied inputs.now.inputs self.now }
        requires counted { IsCountedBy inputs.now.inputs self.now.list.items settling.now }
        ensures { (row : InterfaceRow) (st : InterfaceState)
            → slice_get inputs.now.inputs.conf.interfaces place ≡ Some row
            → slice_get self.now.list.items place ≡ Some st → st.is_first ≡ true
            → IsNext inputs.now.inputs row st result }
    {
        let look = Look {
            inputs,
            reach: &self.reach,
            graph: &settling.graph,
        };
        let row = &inputs.conf().interfaces.as_slice()[place];
        InterfaceState {
            l3_device: look.l3_device_of(row),
            is_claimed: look.is_claimed(row),
            is_up: look.is_up(row),
            ..self.list[place]
        }
    }

    // The interface at a place becomes another.
    fn put_state<L: Ledger>(
        &mut self,
        place: usize,
        new: InterfaceState,
        inputs: &KnownInputs,
        settling: &mut GraphSettling,
        steps: &mut Steps<L>,
    )
        requires place { place < length inputs.now.inputs.conf.interfaces }
        requires tied { IsTied inputs.now.inputs self.old }
        requires counted { IsCountedBy inputs.now.inputs self.old.list.items settling.old }
        requires can { (row : InterfaceRow) (st : InterfaceState)
            → slice_get inputs.now.inputs.conf.interfaces place ≡ Some row
            → slice_get self.old.list.items place ≡ Some st
            → CanBecome inputs.now.inputs settling.old row st new }
        ensures tied { IsTied inputs.now.inputs self.new }
        ensures counted { IsCountedBy inputs.now.inputs self.new.list.items settling.new }
        ensures list { self.new.list.items ≡ slice_set self.old.list.items place new }
        ensures kept { self.new ≡ record self.old { list = self.new.list } }
        ensures stays { DiffersInCounts settling.old settling.new }
    {
        let old = self.list[place];
        self.withdraw(place, &old, inputs, settling);
        move_claims(&mut settling.graph, &old, &new, steps);
        self.give(place, &new, inputs, settling);
        self.list[place] = new;
    }

    // What the interface at a place gives, as it is, is given once less.
    fn withdraw(
        &self,
        place: usize,
        state: &InterfaceState,
        inputs: &KnownInputs,
        settling: &mut GraphSettling,
    )
        requires place { place < length inputs.now.inputs.conf.interfaces }
        requires reach { IsReachOf inputs.now.inputs self.now.reach }
        requires given { (row : InterfaceRow) (o : Object)
            → slice_get inputs.now.inputs.conf.interfaces place ≡ Some row
            → times_in o (gives (facts_of inputs.now.inputs) row state.now)
            ≤ givers_of settling.old.gifts o }
        ensures gifts { (row : InterfaceRow)
            → slice_get inputs.now.inputs.conf.interfaces place ≡ Some row
            → settling.new.gifts ≡ fold given_once_less settling.old.gifts
            (gives (facts_of inputs.now.inputs) row state.now) }
        ensures kept { settling.new ≡ record settling.old { gifts = settling.new.gifts } }
    {
        if !state.is_up {
            return;
        }
        let Some(l3_device) = state.l3_device else {
            return;
        };
        let look = Look {
            inputs,
            reach: &self.reach,
            graph: &settling.graph,
        };
        let row = &inputs.conf().interfaces.as_slice()[place];
        look.withdraw_all(&mut settling.gifts, row, &l3_device);
    }

    // What the interface at a place gives, as it is, is given once more.
    fn give(
        &self,
        place: usize,
        state: &InterfaceState,
        inputs: &KnownInputs,
        settling: &mut GraphSettling,
    )
        requires place { place < length inputs.now.inputs.conf.interfaces }
        requires reach { IsReachOf inputs.now.inputs self.now.reach }
        requires places { (row : InterfaceRow)
            → slice_get inputs.now.inputs.conf.interfaces place ≡ Some row
            → HavePlaces settling.old.gifts (gives (facts_of inputs.now.inputs) row state.now) }
        requires few { (row : InterfaceRow) (o : Object)
            → slice_get inputs.now.inputs.conf.interfaces place ≡ Some row
            → givers_of settling.old.gifts o
            + length (gives (facts_of inputs.now.inputs) row state.now) ≤ 2 ^ 62 }
        ensures gifts { (row : InterfaceRow)
            → slice_get inputs.now.inputs.conf.interfaces place ≡ Some row
            → settling.new.gifts ≡ fold given_once_more settling.old.gifts
            (gives (facts_of inputs.now.inputs) row state.now) }
        ensures kept { settling.new ≡ record settling.old { gifts = settling.new.gifts } }
    {
        if !state.is_up {
            return;
        }
        let Some(l3_device) = state.l3_device else {
            return;
        };
        let look = Look {
            inputs,
            reach: &self.reach,
            graph: &settling.graph,
        };
        let row = &inputs.conf().interfaces.as_slice()[place];
        look.give_all(&mut settling.gifts, row, &l3_device);
    }
}

/// An interface that is neither claimed nor up.
fn idle(state: &InterfaceState) -> InterfaceState
    ensures { result ≡ spec.idle state.now }
{
    InterfaceState {
        is_claimed: false,
        is_up: false,
        ..*state
    }
}
