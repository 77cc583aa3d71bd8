ghost use Rattle.std.specs.Prelude.{◌≡◌, None, IfOk};
ghost use Rattle.net_rules.specs.Refusal.{refusal};
ghost use Rattle.net_rules.specs.After.{changed};
ghost use Rattle.net_follow.specs.SettlingState.{held_of};
ghost use Rattle.net_follow.specs.InStep.{inputs_of, IsInStep};
ghost use Rattle.net_rebuild.specs.Rebuild.{AreFewRows, IsRebuildOf};

use crate::gifts::expected;
use crate::next::{inputs_after, with_room};
use given_objects::GivenObjects;
use graph_rules::RadioPort;
use kern_model::DevName;
use known_inputs::KnownInputs;
use load_parts::{further_names, graph_ports};
use net_after::{notices_between, numbers_of};
use net_follow::{Follower, States};
use net_rules::{Event, Notice};
use net_view::Levels;
use plane_io::Memory;
use std::alloc::Global;
use std::collections::VecDeque;

/// What is kept beside the graph after an event: nobody gives anything, no interface is claimed or
/// up, and there is room for all that follows.
#[derive(Drop)]
pub struct Rebuild {
    pub inputs: KnownInputs,
    pub states: States,
    pub gifts: GivenObjects,
    /// What is to be told of the event, with room for what a later one tells.
    pub notices: VecDeque<Notice>,
    pub touched: Vec<usize>,
    /// Names for the graph beside those of the rows: of present devices, and of ports of radios.
    pub plain: Vec<DevName>,
    pub ports: Vec<RadioPort>,
}

impl Rebuild {
    /// What a load, or an answer of a radio, makes anew, where nothing refuses it.
    ///
    /// # Errors
    ///
    /// `Memory` where there is not enough of it, where numbers of requests run out, or where an
    /// interface gives more than 2^49 objects by its options or by its answer.
    pub fn of(alloc: Global, follower: &Follower, event: Event) -> Result<Rebuild, Memory>
        requires step { IsInStep follower.now }
        requires free { refusal (record {
          inputs = inputs_of follower.now;
          held = held_of follower.now.settling;
        }) event ≡ None }
        requires few { AreFewRows (changed (inputs_of follower.now) event).conf }
        ensures { IfOk result (IsRebuildOf follower.now event) }
    {
        let _once = follower.inputs.conf();
        let before = follower.inputs.copy(alloc)?;
        let numbers = numbers_of(alloc, &before)?;
        let next = before.next;
        let now = inputs_after(alloc, before, event)?;
        let told = notices_between(alloc, numbers.as_slice(), next, &now)?;
        let rows = now.conf.interfaces.as_slice().len();
        let notices = with_room(told, 2 * rows)?;
        let touched = Vec::with_capacity(alloc, rows)?;
        let levels = Levels::of(alloc, &now)?;
        let ports = graph_ports(alloc, &levels.ports)?;
        let plain = further_names(alloc, &now, &levels.ports)?;
        let states = States::of(alloc, &now, &levels.ports)?;
        let gifts = expected(
            alloc,
            &follower.settling.gifts,
            &now,
            &levels,
            &states.reach,
        )?;
        let inputs = KnownInputs::from(now)?;
        Ok(Rebuild {
            inputs,
            states,
            gifts,
            notices,
            touched,
            plain,
            ports,
        })
    }
}
