//! Memory for answers.
ghost use Rattle.std.specs.Prelude.{◌≡◌, ◌<◌, ℕ, None, Some, OnOk, IfSome, length, slice_get, true};
ghost use Rattle.std.specs.Option.{option_and_then, option_copied};
ghost use Rattle.net_rows.specs.declared.rows.InterfaceRow.{InterfaceRow};
ghost use Rattle.net_rules.specs.declared.inputs.Inputs.{Inputs};
ghost use Rattle.net_rules.specs.declared.event.Event.TheVariants as event;
ghost use Rattle.net_rules.specs.Interfaces.{device_or_own};
ghost use Rattle.net_rules.specs.Inputs.{facts_of};
ghost use Rattle.net_rules.specs.Refusal.{refusal};
ghost use Rattle.net_rules.specs.declared.state.InterfaceState.{InterfaceState};
ghost use Rattle.net_gifts.specs.Giving.{HavePlaces};
ghost use Rattle.gift_places.specs.Expecting.{HasMorePlaces};
ghost use Rattle.state_requests.specs.SettlingState.{held_of};
ghost use Rattle.net_reach.specs.Groups.{HasRoomAt};
ghost use Rattle.net_reach.specs.Reach.{IsReachOf, interface_place};
ghost use Rattle.state_requests.specs.Kept.{IsTied};
ghost use Rattle.net_follow.specs.InStep.{inputs_of, IsInStep, LooksAs};
ghost use Rattle.net_follow.specs.Answering as spec;
ghost use Rattle.net_follow.specs.Answering.{HasAnswerRoom, l3_device_by, given_hearing};

use crate::follower::Follower;
use gift_places::expect_given;
use given_objects::GivenObjects;
use kern_model::DevName;
use known_inputs::KnownInputs;
use net_reach::Reach;
use net_rows::InterfaceRow;
use net_rules::Answer;
use net_view::asks_nothing;
use plane_io::{Memory, Text};
use state_requests::States;
use std::alloc::Global;

impl Follower {
    /// Takes all memory for an answer to the request of the interface at a place.
    ///
    /// # Errors
    ///
    /// `Memory` where there is not enough of it. Then there may be places for gifts that nobody
    /// gives, which changes nothing.
    pub fn await_answer(
        &mut self,
        alloc: Global,
        place: usize,
        interface: &Text,
        number: u64,
        answer: &Answer,
    ) -> Result<(), Memory>
        requires step { IsInStep self.old }
        requires place { interface_place (inputs_of self.old).conf interface.now ≡ Some place }
        requires free { refusal (record {
          inputs = inputs_of self.old;
          held = held_of self.old.settling;
        }) (event.Answer interface.now number answer.now) ≡ None }
        ensures room { OnOk result ((row : InterfaceRow)
            → slice_get (inputs_of self.old).conf.interfaces place ≡ Some row
            → HasAnswerRoom self.new row number answer.now) }
        ensures step { IsInStep self.new }
        ensures looks { LooksAs self.old self.new }
    {
        let gifts = &mut self.settling.gifts;
        let Ok(()) = expect_answer(&self.inputs, &self.states, gifts, place, answer) else {
            return Err(Memory);
        };
        reserve_l3_device(alloc, &mut self.states.reach, &answer.device)
    }
}

// A place for each address and each route that the row at a place, the first of its name, gives
// with an answer.
fn expect_answer(
    inputs: &KnownInputs,
    states: &States,
    gifts: &mut GivenObjects,
    place: usize,
    answer: &Answer,
) -> Result<(), Memory>
    requires place { place < length inputs.now.inputs.conf.interfaces }
    requires tied { IsTied inputs.now.inputs states.now }
    requires first { (st : InterfaceState) → slice_get states.now.list.items place ≡ Some st
        → st.is_first ≡ true }
    ensures places { (row : InterfaceRow)
        → slice_get inputs.now.inputs.conf.interfaces place ≡ Some row
        → OnOk result (HavePlaces gifts.new
        (given_hearing (facts_of inputs.now.inputs) row answer.now
        (l3_device_by (facts_of inputs.now.inputs) row answer.now))) }
    ensures more { HasMorePlaces gifts.old gifts.new }
{
    let conf = inputs.conf();
    let row = &conf.interfaces.as_slice()[place];
    let Some(dev) = l3_device_of(row, answer, states.list[place].device) else {
        return Ok(());
    };
    let routes = conf.routes.as_slice();
    let places = states.reach.routes_of(&row.name);
    expect_given(gifts, row, heard(row, answer), routes, places, &dev)
}

// What a row hears of an answer.
fn heard<'a>(row: &InterfaceRow, answer: &'a Answer) -> Option<&'a Answer>
    ensures { option_copied result ≡ spec.heard row.now answer.now }
{
    if asks_nothing(&row.proto) {
        None
    } else {
        Some(answer)
    }
}

// The layer-3 device of a row with an answer, where it has that device of its own.
fn l3_device_of(row: &InterfaceRow, answer: &Answer, own: Option<DevName>) -> Option<DevName>
    ensures { result ≡ device_or_own
        (option_and_then (λ a. a.device) (spec.heard row.now answer.now)) own }
{
    if asks_nothing(&row.proto) {
        return own;
    }
    match answer.device {
        Some(device) => Some(device),
        None => own,
    }
}

// Room for one more interface at a layer-3 device, if there is one.
fn reserve_l3_device(
    alloc: Global,
    reach: &mut Reach,
    l3_device: &Option<DevName>,
) -> Result<(), Memory>
    ensures room { OnOk result (IfSome l3_device.now (HasRoomAt reach.new.at_l3_device)) }
    ensures stays { (inputs : Inputs) → IsReachOf inputs reach.old → IsReachOf inputs reach.new }
{
    match l3_device {
        Some(l3_device) => reach.reserve_l3_device(alloc, l3_device),
        None => Ok(()),
    }
}
