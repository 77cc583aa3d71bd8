ghost use Rattle.std.specs.Prelude.{◌≡◌, ◌≤◌, ◌<◌, ◌+◌, ◌*◌, ◌^◌, map, length, Some, None, IfOk};
ghost use Rattle.std.specs.Prelude.{IfErr, OnOk, OnErr};
ghost use Rattle.std.specs.Option.{option_map};
ghost use Rattle.kern_model.specs.declared.object.Device.{Device};
ghost use Rattle.kern_calls.specs.Calls as between;
ghost use Rattle.net_rules.specs.Refusal.{is_held_link};
ghost use Rattle.graph_rules.specs.State as state;
ghost use Rattle.graph_rules.specs.Answers as answers;
ghost use Rattle.graph_rules.specs.Calls as calls;
ghost use Rattle.graph_rules.specs.After as after;
ghost use Rattle.graph_rules.specs.Conditions.{IsId, IsNext, ArePorts, CanLoad, CountsOn};
ghost use Rattle.graph_rules.specs.Edges.{changed_edges};
ghost use Rattle.graph_counts.specs.Counted.{name_of};
ghost use Rattle.graph_objects.specs.Marks.{held_of};
ghost use Rattle.graph_tables.specs.Wishes.{mays};
ghost use Rattle.graph_tables.specs.Lists.{AreUsed, HaveSame};
ghost use Rattle.graph_tables.specs.Whole.{IsWhole};
ghost use Rattle.graph_tables.specs.Wished.{wish_in};
ghost use Rattle.dev_graph.specs.Added.{added};
ghost use Rattle.dev_graph.specs.Inside.{known_in};

use crate::adding::{expect_plain, one_plain};
use crate::judging::judge_uses;
use crate::own::own_take;
use graph_counts::CountedNames;
use graph_names::Names;
use graph_objects::DeviceObjects;
use graph_rules::{DevId, RadioPort};
use graph_tables::{judge, table};
use kern_model::{Call, DevName, Device, Mac, Object};
use net_rows::Conf;
use plane_io::Memory;
use std::alloc::Global;
use std::marker::Model;
use std::sync::ledger::Ledger;
use use_counts::{MarkedIds, Steps};

/// The graph of network devices: the names of rows with further plain ones, their devices and
/// claims, the ports of radios, and what is held on devices.
#[derive(Drop)]
pub struct Graph {
    /// None before the first load.
    names: Option<CountedNames>,
    objects: DeviceObjects,
    /// For each id whether its name is used.
    used: Vec<bool>,
    /// Ids whose name's use an event changes, noted until it is judged. There is room for all ids.
    uses: MarkedIds,
    loads: u64,
}

impl Model for Graph {
    ghost use Rattle.std.specs.Coded.{codes};
    ghost use Rattle.std.specs.FinSet as set;
    ghost use Rattle.kern_model.specs.ObjectOrder.{object_cmp};
    ghost use Rattle.kern_model.specs.contracts.object.Object as object;
    ghost use Rattle.graph_rules.specs.State.{State};

    ghost Value = { State };

    ghost coded = { Prim.hlevel (codes, set.code {R = object_cmp} object.the_row.coded) };

    ghost use Rattle.dev_graph.specs.Inside.{state_of, IsTied};

    ghost view = { state_of };

    ghost invariant = { IsTied };
}

/// Why a graph was not loaded: there was not enough memory. The old graph is handed back as it was.
#[derive(Drop)]
pub struct NotLoaded {
    pub old: Option<Graph>,
}

/// The names after a load, with the devices and claims that they had.
fn names_after(
    alloc: Global,
    conf: &Conf,
    plain: &[DevName],
    radio: &[RadioPort],
    before: &Option<CountedNames>,
) -> Result<CountedNames, Memory>
    requires { CanLoad conf.now plain.now radio.now }
    ensures { IfOk result (λ names. names ≡ after.known_of (known_in before.now).names conf.now
        plain.now radio.now) }
{
    match before {
        Some(names) => CountedNames::load(alloc, conf, plain, radio, names.names()),
        None => CountedNames::load(alloc, conf, plain, radio, &Names::new(alloc)),
    }
}

/// One more plain name, with its mark of use and with what it may want. Where memory lacks, all
/// stays.
fn add_to(
    alloc: Global,
    names: &mut CountedNames,
    name: DevName,
    objects: &mut DeviceObjects,
    used: &mut Vec<bool>,
    uses: &mut MarkedIds,
) -> Result<DevId, Memory>
    requires whole { IsWhole names.old }
    requires other { state.place_among names.old.names name ≡ None }
    requires room { length names.old.names ≤ uses.old.room }
    requires size { length used.old.items ≡ length names.old.names }
    requires used { AreUsed names.old used.old.items }
    requires wishes { HaveSame objects.old.wishes (map (wish_in names.old) (mays names.old)) }
    ensures room { length names.new.names ≤ uses.new.room }
    ensures uses { uses.new.ids ≡ uses.old.ids }
    ensures ok { OnOk result (names.new ≡ added names.old name) }
    ensures id { IfOk result (λ id. id.0 ≡ length names.old.names) }
    ensures err { OnErr result (names.new ≡ names.old) }
    ensures size { length used.new.items ≡ length names.new.names }
    ensures used { AreUsed names.new used.new.items }
    ensures held { held_of objects.new ≡ held_of objects.old }
    ensures wishes { HaveSame objects.new.wishes (map (wish_in names.new) (mays names.new)) }
{
    used.reserve(1)?;
    uses.add_room()?;
    expect_plain(names, name, objects)?;
    match names.add_plain(alloc, name) {
        Ok(id) => {
            used.push_reserved(false);
            Ok(id)
        }
        Err(error) => {
            objects.forget_from(names.names().len());
            Err(error)
        }
    }
}

impl Graph {
    /// A graph without names, devices, claims and held objects. It takes no memory.
    pub fn new(alloc: Global) -> Graph
        ensures { result ≡ state.empty }
    {
        Graph {
            names: None,
            objects: DeviceObjects::new(alloc),
            used: Vec::new(alloc),
            uses: MarkedIds::new(alloc),
            loads: 0,
        }
    }

    /// The graph of some names, with what is held from before.
    fn over(
        alloc: Global,
        names: CountedNames,
        held: &DeviceObjects,
        loads: u64,
    ) -> Result<Graph, Memory>
        requires { IsWhole names }
        ensures { IfOk result (λ graph. graph ≡ record {
          known = names;
          held = held_of held.now;
          loads = loads;
        }) }
    {
        let mut objects = table(
            alloc,
            names.names(),
            names.rows(),
            names.vlans(),
            names.radio(),
            held,
        )?;
        let mut used = Vec::new(alloc);
        used.resize(names.names().len(), false)?;
        let uses = MarkedIds::with_room(alloc, used.len())?;
        judge(&names, &mut used, &mut objects);
        Ok(Graph {
            names: Some(names),
            objects,
            used,
            uses,
            loads,
        })
    }

    fn load_over(
        alloc: Global,
        conf: &Conf,
        plain: &[DevName],
        radio: &[RadioPort],
        before: &Graph,
    ) -> Result<Graph, Memory>
        requires can { CanLoad conf.now plain.now radio.now }
        requires counts { CountsOn (Some before.now) }
        ensures { IfOk result (λ graph. graph ≡ after.loaded_after (Some before.now) conf.now
            plain.now radio.now) }
    {
        let names = names_after(alloc, conf, plain, radio, &before.names)?;
        Graph::over(alloc, names, &before.objects, before.loads + 1)
    }

    /// The graph of a configuration, of further plain names and of the ports of radios. It keeps
    /// the old graph's present devices, the claims of names that stay, and what is held.
    ///
    /// # Errors
    ///
    /// `NotLoaded` with the old graph as it was, where there is not enough memory.
    pub fn load(
        alloc: Global,
        conf: &Conf,
        plain: &[DevName],
        radio: &[RadioPort],
        old: Option<Graph>,
    ) -> Result<Graph, NotLoaded>
        requires can { CanLoad conf.now plain.now radio.now }
        requires counts { CountsOn old }
        ensures ok { IfOk result (λ graph. graph ≡ after.loaded_after old conf.now plain.now
            radio.now) }
        ensures err { IfErr result (λ error. error.old ≡ old) }
    {
        match old {
            Some(before) => match Graph::load_over(alloc, conf, plain, radio, &before) {
                Ok(graph) => Ok(graph),
                Err(Memory) => Err(NotLoaded { old: Some(before) }),
            },
            None => match Graph::load_over(alloc, conf, plain, radio, &Graph::new(alloc)) {
                Ok(graph) => Ok(graph),
                Err(Memory) => Err(NotLoaded { old: None }),
            },
        }
    }

    /// What every graph keeps: its rows, its names, the ports of radios and the VLANs of bridges
    /// are sound together.
    pub fn is_kept(&self)
        ensures { IsWhole self.now.known }
    {
        let _loads = self.loads;
    }

    /// How many loads made the graph.
    pub fn loaded(&self) -> u64
        ensures { result ≡ self.now.loads }
    {
        self.loads
    }

    /// The id of a name, or none where it is not in the graph.
    pub fn find(&self, name: &DevName) -> Option<DevId>
        ensures { option_map (λ id. id.0) result
            ≡ state.place_among self.now.known.names name.now }
    {
        match &self.names {
            Some(names) => names.find(name),
            None => None,
        }
    }

    /// One more plain name, without a device and without claims. Its id is the next one.
    ///
    /// # Errors
    ///
    /// `Memory` where there is not enough of it. Then all stays.
    pub fn add_plain(&mut self, alloc: Global, name: DevName) -> Result<DevId, Memory>
        requires { state.place_among self.old.known.names name ≡ None }
        ensures ok { OnOk result (self.new ≡ after.added_after self.old name) }
        ensures id { IfOk result (λ id. id.0 ≡ length self.old.known.names) }
        ensures err { OnErr result (self.new ≡ self.old) }
    {
        match &mut self.names {
            Some(names) => {
                let objects = &mut self.objects;
                add_to(alloc, names, name, objects, &mut self.used, &mut self.uses)
            }
            None => {
                let names = one_plain(alloc, name)?;
                *self = Graph::over(alloc, names, &self.objects, self.loads)?;
                Ok(DevId(0))
            }
        }
    }

    /// Radios have these ports in place of their old ones.
    ///
    /// # Errors
    ///
    /// `Memory` where there is not enough of it. Then all stays.
    pub fn set_ports(&mut self, alloc: Global, radio: &[RadioPort]) -> Result<(), Memory>
        requires { ArePorts self.old.known.rows (state.names_in self.old.known) radio.now }
        ensures ok { OnOk result (self.new ≡ after.ports_after self.old radio.now) }
        ensures err { OnErr result (self.new ≡ self.old) }
    {
        let Some(names) = &mut self.names else {
            return Ok(());
        };
        let rows = names.rows();
        let vlans = names.vlans();
        let mut objects = table(alloc, names.names(), rows, vlans, radio, &self.objects)?;
        names.set_ports(alloc, radio)?;
        judge(names, &mut self.used, &mut objects);
        self.objects = objects;
        Ok(())
    }

    /// A device is there.
    pub fn set_present<L: Ledger>(
        &mut self,
        id: DevId,
        carrier: bool,
        mtu: u32,
        mac: Mac,
        steps: &mut Steps<L>,
    )
        requires { IsId self.old id.0 }
        ensures state { self.new ≡ after.present_after self.old id.0 (record {
          carrier = carrier;
          mtu = mtu;
          mac = mac;
        }) }
        ensures cost { steps.new ≤ steps.old
            + (1 + 2 * changed_edges self.old.known self.new.known) }
    {
        let Some(names) = &mut self.names else {
            return;
        };
        let device = Device { carrier, mtu, mac };
        names.set_present(id, device, &mut self.uses, steps);
        judge_uses(names, &mut self.used, &mut self.uses, &mut self.objects);
    }

    /// A device is gone, and what is held on it with it. One that is not there stays so, and what
    /// is held too.
    pub fn set_absent<L: Ledger>(&mut self, id: DevId, steps: &mut Steps<L>)
        requires { IsId self.old id.0 }
        ensures state { self.new ≡ after.absent_after self.old id.0 }
        ensures cost { steps.new ≤ steps.old
            + (1 + 2 * changed_edges self.old.known self.new.known) }
    {
        let Some(names) = &mut self.names else {
            return;
        };
        let name = names.names().name(id.0);
        let device = names.device(id);
        names.set_absent(id, &mut self.uses, steps);
        judge_uses(names, &mut self.used, &mut self.uses, &mut self.objects);
        leave_with(&mut self.objects, device, &name);
    }

    /// The carrier of a device is on or off. Of one that is not there nothing is told.
    pub fn set_carrier<L: Ledger>(&mut self, id: DevId, on: bool, steps: &mut Steps<L>)
        requires { IsId self.old id.0 }
        ensures state { self.new ≡ after.carrier_after self.old id.0 on }
        ensures cost { steps.new ≤ steps.old
            + (1 + 2 * changed_edges self.old.known self.new.known) }
    {
        let Some(names) = &mut self.names else {
            return;
        };
        names.set_carrier(id, on, &mut self.uses, steps);
        judge_uses(names, &mut self.used, &mut self.uses, &mut self.objects);
    }

    /// A name has this many claims.
    pub fn set_claim<L: Ledger>(&mut self, id: DevId, claims: u32, steps: &mut Steps<L>)
        requires within { IsId self.old id.0 }
        requires few { claims ≤ 1024 }
        ensures state { self.new ≡ after.claimed_after self.old id.0 claims }
        ensures cost { steps.new ≤ steps.old
            + (1 + 2 * changed_edges self.old.known self.new.known) }
    {
        let Some(names) = &mut self.names else {
            return;
        };
        names.set_claim(id, claims, &mut self.uses, steps);
        judge_uses(names, &mut self.used, &mut self.uses, &mut self.objects);
    }

    /// Whether the name of an id is available.
    pub fn available(&self, id: DevId) -> bool
        requires { IsId self.now id.0 }
        ensures { result ≡ answers.available_in self.now.known (name_of self.now.known id.0) }
    {
        match &self.names {
            Some(names) => names.available(id),
            None => false,
        }
    }

    /// Whether the name of an id has link.
    pub fn link(&self, id: DevId) -> bool
        requires { IsId self.now id.0 }
        ensures { result ≡ answers.link_in self.now.known (name_of self.now.known id.0) }
    {
        match &self.names {
            Some(names) => names.link(id),
            None => false,
        }
    }

    /// How many use the name of an id.
    pub fn users(&self, id: DevId) -> u32
        requires { IsId self.now id.0 }
        ensures { result ≡ answers.users_in self.now.known (name_of self.now.known id.0) }
    {
        match &self.names {
            Some(names) => names.users(id),
            None => 0,
        }
    }

    /// How many claim the name of an id.
    pub fn claims(&self, id: DevId) -> u32
        requires { IsId self.now id.0 }
        ensures { result ≡ (after.name_at self.now.known.names id.0).claims }
    {
        match &self.names {
            Some(names) => names.names().claims(id.0),
            None => 0,
        }
    }

    /// Whether an object is wanted; an address or a route never is.
    pub fn wanted(&self, object: &Object) -> bool
        ensures { result ≡ calls.is_wanted self.now object.now }
    {
        self.objects.wanted(object)
    }

    /// Whether an object is held; an address or a route never is.
    pub fn held(&self, object: &Object) -> bool
        ensures { result ≡ calls.is_held self.now object.now }
    {
        self.objects.held(object)
    }

    /// Whether a link of that name is held, of whatever kind.
    pub fn holds_link(&self, name: &DevName) -> bool
        ensures { result ≡ is_held_link self.now.held name.now }
    {
        self.objects.holds_link(name)
    }

    /// A call was made: the next take, or where there is none the next put.
    pub fn did(&mut self, call: &Call)
        requires { IsNext self.old call.now }
        ensures { self.new ≡ after.did_after self.old call.now }
    {
        match call {
            Call::Take { object, .. } => self.objects.take(object),
            Call::Put(object) => self.objects.put(object),
        }
    }

    /// The calls that come next are put in order, so that each is found at once. Nothing else is
    /// seen of it.
    pub fn prepare(&mut self)
        ensures { self.new ≡ self.old }
    {
        self.objects.prepare();
    }

    /// The first of the calls that take, or none where nothing is to be taken.
    pub fn next_take(&self) -> Option<Call>
        ensures { result ≡ calls.next_take_in self.now }
    {
        match self.objects.first_take() {
            Some(object) => Some(own_take(&self.names, object)),
            None => None,
        }
    }

    /// The first of the calls that put, or none where nothing is to be put.
    pub fn next_put(&self) -> Option<Call>
        ensures { result ≡ calls.next_put_in self.now }
    {
        match self.objects.first_put() {
            Some(object) => Some(Call::Put(object)),
            None => None,
        }
    }

    /// The take of any object, with the own values of its name's device: also of an address or a
    /// route.
    pub fn take_of(&self, object: Object) -> Call
        ensures { result ≡ between.own_take (state.devices_in self.now.known) object }
    {
        own_take(&self.names, object)
    }

    /// Whether the link of a name is taken, or a link on which the name stands.
    pub fn loses_link(&self, name: &DevName) -> bool
        ensures { result ≡ calls.loses_link_in self.now name.now }
    {
        self.objects.loses_link(name)
    }

    /// How many objects are in one of what is held and what is wanted, and not in the other.
    pub fn due(&self) -> u64
        ensures due { result ≡ calls.due_in self.now }
        ensures few { result ≤ 2 ^ 62 }
    {
        self.objects.due()
    }
}

/// What stands on the device of a name goes with it, where it was there.
fn leave_with(objects: &mut DeviceObjects, device: Option<Device>, name: &DevName)
    ensures held { held_of objects.new ≡ after.left_by device name.now (held_of objects.old) }
    ensures wishes { objects.new.wishes ≡ objects.old.wishes }
{
    if device.is_some() {
        objects.leave(name);
    }
}
