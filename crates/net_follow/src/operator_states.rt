//! Operator states by hand.
ghost use Rattle.std.specs.Prelude.{◌≡◌, ◌<◌, ◌^◌, [], Some};
ghost use Rattle.net_rules.specs.declared.event.Event.TheVariants as event;
ghost use Rattle.net_reach.specs.Reach.{interface_place};
ghost use Rattle.net_follow.specs.InStep.{inputs_of, IsInStep, HasFollowed};

use crate::follower::Follower;
use crate::following::touch_one;
use plane_io::Text;
use std::marker::Brand;
use std::sync::ledger::{Blank, Ledger};
use use_counts::Steps;

impl Follower {
    /// The interface at a place, the first of its name, is brought up or down by hand. It takes no
    /// memory.
    pub fn operator_state(&mut self, place: usize, interface: Text, up: bool)
        requires step { IsInStep self.old }
        requires told { self.old.notices.items ≡ [] }
        requires place { interface_place (inputs_of self.old).conf interface ≡ Some place }
        requires next { (inputs_of self.old).next < 2 ^ 63 }
        ensures step { IsInStep self.new }
        ensures followed { HasFollowed (event.Operator interface up) self.old self.new }
    {
        self.operator_state_by::<Brand>(place, interface, up, Blank::new(1));
    }

    fn operator_state_by<L: Ledger>(
        &mut self,
        place: usize,
        interface: Text,
        up: bool,
        blank: Blank,
    )
        requires name { blank.name ≡ L.name }
        requires parts { blank.parts ≡ L.parts }
        requires some { 0 < L.parts }
        requires step { IsInStep self.old }
        requires told { self.old.notices.items ≡ [] }
        requires place { interface_place (inputs_of self.old).conf interface ≡ Some place }
        requires next { (inputs_of self.old).next < 2 ^ 63 }
        ensures step { IsInStep self.new }
        ensures followed { HasFollowed (event.Operator interface up) self.old self.new }
    {
        let mut steps = Steps::<L>::new(blank);
        self.inputs.operator_state(interface, up);
        touch_one(&mut self.touched, place);
        self.follow(&mut steps);
    }
}
