//! What happens to devices.
ghost use Rattle.std.specs.Prelude.{◌≡◌, ◌≤◌, ◌<◌, ◌+◌, ◌^◌, ◌⊎◌, List, [], None, Some, OnOk};
ghost use Rattle.std.specs.Prelude.{OnErr, IfOk, length};
ghost use Rattle.kern_model.specs.declared.object.Device.{Device};
ghost use Rattle.kern_model.specs.ObjectOrder.{Objects};
ghost use Rattle.net_rules.specs.declared.inputs.Inputs.{Inputs};
ghost use Rattle.net_rules.specs.declared.event.Event.TheVariants as event_of;
ghost use Rattle.net_rules.specs.Inputs.{facts_of};
ghost use Rattle.net_rules.specs.After.{changed};
ghost use Rattle.net_rules.specs.Moment.{held_after};
ghost use Rattle.net_rules.specs.Refusal.{refusal};
ghost use Rattle.graph_rules.specs.State.{place_among};
ghost use Rattle.graph_rules.specs.After.{added_after};
ghost use Rattle.graph_laws.specs.Below.{AgreesBelow};
ghost use Rattle.state_requests.specs.SettlingState.{held_of, IsReady};
ghost use Rattle.known_inputs.specs.Known.{StandOnce, device_names};
ghost use Rattle.known_inputs.specs.Steps.{name_of, place_of, HasDeviceRoom};
ghost use Rattle.net_rules.specs.declared.state.InterfaceState.{InterfaceState};
ghost use Rattle.net_reach.specs.Reach.{IsReachOf};
ghost use Rattle.state_requests.specs.Counted.{IsCountedBy};
ghost use Rattle.net_follow.specs.InStep.{inputs_of, IsInStep, IsCalm, HasFollowed, LooksAs};
ghost use Rattle.net_follow.specs.Awaiting.{IsAwaiting, IsPlaced, with_device};

use crate::follower::Follower;
use crate::following::touch;
use dev_graph::Graph;
use graph_rules::DevId;
use kern_model::{DevEvent, DevName};
use known_inputs::KnownInputs;
use net_reach::Reach;
use plane_io::Memory;
use state_requests::GraphSettling;
use std::alloc::Global;
use std::marker::Brand;
use std::sync::ledger::{Blank, Ledger};
use use_counts::Steps;

impl Follower {
    /// Takes all memory for something that happens to a device, where nothing refuses it: its name
    /// is known to the graph by the id that is given, and the place of one that comes is noted.
    ///
    /// # Errors
    ///
    /// `Memory` where there is not enough of it. Then the graph may know one plain name more, which
    /// changes nothing.
    pub fn await_event(&mut self, alloc: Global, event: &DevEvent) -> Result<DevId, Memory>
        requires step { IsInStep self.old }
        requires free { refusal (record {
          inputs = inputs_of self.old;
          held = held_of self.old.settling;
        }) (event_of.Device event.now) ≡ None }
        ensures ok { IfOk result (λ id. IsAwaiting event.now id.0 self.new) }
        ensures err { OnErr result (IsInStep self.new) }
        ensures looks { LooksAs self.old self.new }
    {
        self.settling.graph.is_kept();
        let Ok(id) = id_of(alloc, &mut self.settling.graph, name_of(event)) else {
            return Err(Memory);
        };
        let Ok(()) = make_room(&mut self.inputs, &mut self.states.reach, event) else {
            return Err(Memory);
        };
        Ok(id)
    }

    /// What was awaited did not happen.
    pub fn desist(&mut self, event: &DevEvent, id: DevId)
        requires awaiting { IsAwaiting event.now id.0 self.old }
        requires free { refusal (record {
          inputs = inputs_of self.old;
          held = held_of self.old.settling;
        }) (event_of.Device event.now) ≡ None }
        ensures step { IsInStep self.new }
        ensures looks { LooksAs self.old self.new }
    {
        let _rows = self.inputs.conf();
        forget_room(&mut self.states.reach, event);
    }

    /// What was awaited happened. It takes no memory.
    pub fn happen(&mut self, event: &DevEvent, id: DevId)
        requires awaiting { IsAwaiting event.now id.0 self.old }
        requires told { self.old.notices.items ≡ [] }
        requires free { refusal (record {
          inputs = inputs_of self.old;
          held = held_of self.old.settling;
        }) (event_of.Device event.now) ≡ None }
        requires next { (inputs_of self.old).next + 1024 ≤ 2 ^ 63 }
        ensures step { IsInStep self.new }
        ensures followed { HasFollowed (event_of.Device event.now) self.old self.new }
    {
        self.happen_by::<Brand>(event, id, Blank::new(1));
    }

    fn happen_by<L: Ledger>(&mut self, event: &DevEvent, id: DevId, blank: Blank)
        requires name { blank.name ≡ L.name }
        requires parts { blank.parts ≡ L.parts }
        requires some { 0 < L.parts }
        requires awaiting { IsAwaiting event.now id.0 self.old }
        requires told { self.old.notices.items ≡ [] }
        requires free { refusal (record {
          inputs = inputs_of self.old;
          held = held_of self.old.settling;
        }) (event_of.Device event.now) ≡ None }
        requires next { (inputs_of self.old).next + 1024 ≤ 2 ^ 63 }
        ensures step { IsInStep self.new }
        ensures followed { HasFollowed (event_of.Device event.now) self.old self.new }
    {
        let mut steps = Steps::<L>::new(blank);
        let _rows = self.inputs.conf();
        let place = place_before(&self.states.reach, event);
        self.inputs.happen(event, place);
        tell_graph(&mut self.settling, event, id, &mut steps);
        forget_place(&mut self.states.reach, event);
        touch(&mut self.states.reach, &mut self.touched, name_of(event));
        self.follow(&mut steps);
    }
}

// The id of a name. A name that the graph does not know joins it.
fn id_of(alloc: Global, graph: &mut Graph, name: &DevName) -> Result<DevId, Memory>
    ensures known { IfOk result (λ id. place_among graph.new.known.names name.now ≡ Some id.0) }
    ensures grown { (graph.new ≡ graph.old) ⊎ ((place_among graph.old.known.names name.now ≡ None)
        × (graph.new ≡ added_after graph.old name.now)) }
{
    match graph.find(name) {
        Some(id) => Ok(id),
        None => graph.add_plain(alloc, *name),
    }
}

// Room for a device that comes, and its place, which is noted. For another there is nothing to do.
fn make_room(inputs: &mut KnownInputs, reach: &mut Reach, event: &DevEvent) -> Result<(), Memory>
    requires { IsReachOf inputs.old.inputs reach.old }
    ensures placed { OnOk result (IsPlaced inputs.old.inputs event.now reach.new) }
    ensures room { OnOk result (HasDeviceRoom inputs.new event.now) }
    ensures err { OnErr result (IsReachOf inputs.old.inputs reach.new) }
    ensures inputs { inputs.new.inputs ≡ inputs.old.inputs }
{
    match event {
        DevEvent::Add { name, .. } => make_place(inputs, reach, name),
        DevEvent::Remove { .. } => Ok(()),
        DevEvent::Carrier { .. } => Ok(()),
    }
}

fn make_place(inputs: &mut KnownInputs, reach: &mut Reach, name: &DevName) -> Result<(), Memory>
    requires { IsReachOf inputs.old.inputs reach.old }
    ensures placed { (device : Device) → OnOk result
        (IsReachOf (with_device inputs.old.inputs name.now device) reach.new) }
    ensures room { OnOk result (length inputs.new.inputs.devices < inputs.new.most_devices) }
    ensures err { OnErr result (IsReachOf inputs.old.inputs reach.new) }
    ensures inputs { inputs.new.inputs ≡ inputs.old.inputs }
{
    let Ok(()) = inputs.reserve_device() else {
        return Err(Memory);
    };
    reach.add_device(name, inputs.devices().len())
}

// The place that was noted of a device that did not come is forgotten.
fn forget_room(reach: &mut Reach, event: &DevEvent)
    ensures { (inputs : Inputs) (held : Objects) → StandOnce inputs
        → refusal (record { inputs = inputs; held = held }) (event_of.Device event.now) ≡ None
        → IsPlaced inputs event.now reach.old → IsReachOf inputs reach.new }
{
    match event {
        DevEvent::Add { name, .. } => reach.remove_device(name),
        DevEvent::Remove { .. } => {}
        DevEvent::Carrier { .. } => {}
    }
}

// The place of a device that left is forgotten.
fn forget_place(reach: &mut Reach, event: &DevEvent)
    ensures { (inputs : Inputs) (held : Objects) → StandOnce inputs
        → refusal (record { inputs = inputs; held = held }) (event_of.Device event.now) ≡ None
        → IsPlaced inputs event.now reach.old
        → IsReachOf (changed inputs (event_of.Device event.now)) reach.new }
{
    match event {
        DevEvent::Add { .. } => {}
        DevEvent::Remove { name } => reach.remove_device(name),
        DevEvent::Carrier { .. } => {}
    }
}

// The place of the device among those that were present. One that comes had none, though its new
// place is noted already.
fn place_before(reach: &Reach, event: &DevEvent) -> Option<usize>
    ensures { (inputs : Inputs) (held : Objects)
        → refusal (record { inputs = inputs; held = held }) (event_of.Device event.now) ≡ None
        → IsPlaced inputs event.now reach.now
        → result ≡ place_of (device_names inputs) (name_of event.now) }
{
    match event {
        DevEvent::Add { .. } => None,
        DevEvent::Remove { name } => reach.device_place(name),
        DevEvent::Carrier { name, .. } => reach.device_place(name),
    }
}

// The graph, and the gifts above it, are told.
fn tell_graph<L: Ledger>(
    settling: &mut GraphSettling,
    event: &DevEvent,
    id: DevId,
    steps: &mut Steps<L>,
)
    requires known { place_among settling.old.graph.known.names (name_of event.now) ≡ Some id.0 }
    requires ready { IsReady settling.old }
    ensures counted { (inputs : Inputs) (states : List InterfaceState)
        → IsCountedBy inputs states settling.old
        → IsCountedBy (changed inputs (event_of.Device event.now)) states settling.new }
    ensures held { (inputs : Inputs) → AgreesBelow (facts_of inputs) settling.old.graph.known
        → refusal (record {
          inputs = inputs;
          held = held_of settling.old;
        }) (event_of.Device event.now) ≡ None
        → held_of settling.new ≡ held_after (held_of settling.old) (event_of.Device event.now) }
    ensures calm { IsCalm settling.new }
    ensures loads { settling.new.graph.loads ≡ settling.old.graph.loads }
{
    match *event {
        DevEvent::Add {
            carrier,
            mtu,
            mac,
            ..
        } => settling.graph.set_present(id, carrier, mtu, mac, steps),
        DevEvent::Remove { .. } => settling.leave(id, steps),
        DevEvent::Carrier { on, .. } => settling.graph.set_carrier(id, on, steps),
    }
}

fn name_of(event: &DevEvent) -> &DevName
    ensures { result.now ≡ name_of event.now }
{
    match event {
        DevEvent::Add { name, .. } => name,
        DevEvent::Remove { name } => name,
        DevEvent::Carrier { name, .. } => name,
    }
}
