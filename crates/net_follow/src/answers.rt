//! Answers to the requests of interfaces.
ghost use Rattle.std.specs.Prelude.{◌≡◌, ◌<◌, [], Some, None, slice_get};
ghost use Rattle.std.specs.Option.{option_and_then};
ghost use Rattle.net_rows.specs.declared.rows.InterfaceRow.{InterfaceRow};
ghost use Rattle.net_rules.specs.declared.event.Event.TheVariants as event;
ghost use Rattle.net_rules.specs.Refusal.{refusal};
ghost use Rattle.state_requests.specs.SettlingState.{held_of};
ghost use Rattle.known_inputs.specs.Steps.{request_of};
ghost use Rattle.net_reach.specs.Reach.{interface_place};
ghost use Rattle.net_follow.specs.InStep.{inputs_of, IsInStep, HasFollowed};
ghost use Rattle.net_follow.specs.Answering.{HasAnswerRoom};

use crate::follower::Follower;
use crate::following::{look, touch_one};
use kern_model::DevName;
use known_inputs::KnownInputs;
use net_rules::Answer;
use plane_io::Text;
use std::marker::Brand;
use std::sync::ledger::{Blank, Ledger};
use use_counts::Steps;

impl Follower {
    /// The handler of the interface at a place, the first of its name, answers the request of this
    /// number. It takes no memory.
    pub fn answer(&mut self, place: usize, interface: &Text, number: u64, answer: Answer)
        requires step { IsInStep self.old }
        requires told { self.old.notices.items ≡ [] }
        requires place { interface_place (inputs_of self.old).conf interface.now ≡ Some place }
        requires free { refusal (record {
          inputs = inputs_of self.old;
          held = held_of self.old.settling;
        }) (event.Answer interface.now number answer) ≡ None }
        requires room { (row : InterfaceRow)
            → slice_get (inputs_of self.old).conf.interfaces place ≡ Some row
            → HasAnswerRoom self.old row number answer }
        ensures step { IsInStep self.new }
        ensures followed { HasFollowed (event.Answer interface.now number answer) self.old
            self.new }
    {
        self.answer_by::<Brand>(place, interface, number, answer, Blank::new(1));
    }

    fn answer_by<L: Ledger>(
        &mut self,
        place: usize,
        interface: &Text,
        number: u64,
        answer: Answer,
        blank: Blank,
    )
        requires name { blank.name ≡ L.name }
        requires parts { blank.parts ≡ L.parts }
        requires some { 0 < L.parts }
        requires step { IsInStep self.old }
        requires told { self.old.notices.items ≡ [] }
        requires place { interface_place (inputs_of self.old).conf interface.now ≡ Some place }
        requires free { refusal (record {
          inputs = inputs_of self.old;
          held = held_of self.old.settling;
        }) (event.Answer interface.now number answer) ≡ None }
        requires room { (row : InterfaceRow)
            → slice_get (inputs_of self.old).conf.interfaces place ≡ Some row
            → HasAnswerRoom self.old row number answer }
        ensures step { IsInStep self.new }
        ensures followed { HasFollowed (event.Answer interface.now number answer) self.old
            self.new }
    {
        let mut steps = Steps::<L>::new(blank);
        let _rows = self.inputs.conf();
        let was = l3_device_told(&self.inputs, number);
        let l3_device = answer.device;
        self.states
            .let_down(place, &self.inputs, &mut self.settling, &mut steps);
        self.inputs.answer(interface, number, answer);
        self.states.reach.set_l3_device(place, was, l3_device);
        touch_one(&mut self.touched, place);
        self.states.refresh(&self.touched, &self.inputs, &mut self.settling, &mut steps);
        look(&mut self.settling);
    }
}

// The layer-3 device that the latest answer to the request of a number told.
fn l3_device_told(inputs: &KnownInputs, number: u64) -> Option<DevName>
    ensures { result ≡ option_and_then (λ o. option_and_then (λ answer. answer.device) o.answer)
        (request_of inputs.now.inputs number) }
{
    match inputs.request(number) {
        Some(open) => l3_device_of(&open.answer),
        None => None,
    }
}

fn l3_device_of(answer: &Option<Answer>) -> Option<DevName>
    ensures { result ≡ option_and_then (λ answer. answer.device) answer.now }
{
    match answer {
        Some(answer) => answer.device,
        None => None,
    }
}
