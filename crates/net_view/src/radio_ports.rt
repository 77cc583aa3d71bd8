ghost use Rattle.std.specs.Prelude.{◌≡◌, ◌++◌, [], ◌∷◌, ℕ, List, None, map, if◌then◌else◌, IfOk};
ghost use Rattle.std.specs.Prelude.{OnOk, bytes_eq, unwrap_or};
ghost use Rattle.std.specs.BTreeMap.{get, is_at};
ghost use Rattle.std.specs.Ordering.{nat_cmp};
ghost use Rattle.std.specs.Cmp.Lexicographic.{slice_cmp};
ghost use Rattle.std.specs.List.{flat_map, filter_map, zip, list_any, find};
ghost use Rattle.std.specs.Option.{option_map, option_and_then, option_copied};
ghost use Rattle.std.specs.Prelude.{option_to_list};
ghost use Rattle.net_rules.specs.Firsts.{firsts};
ghost use Rattle.net_rules.specs.Rows as rows;
ghost use Rattle.net_rules.specs.RadioPorts as spec;
ghost use Rattle.net_rules.specs.RadioPorts.{RadioPort};
ghost use Rattle.net_rules.specs.Inputs.{facts_of};
ghost use Rattle.net_view.specs.Places.{HasPlaces, is_place, named};
ghost use Rattle.net_view.specs.Names.{HasNames, Adds};
ghost use Rattle.net_view.specs.Index.{IsIndexOf};
ghost use Rattle.net_view.specs.RadioPorts.{as_answered, as_joined, port_of_pair, enabled, join_to};
ghost use Rattle.net_view.specs.RadioPorts.{group_in, HasPorts, AreJoins, ArePortsOf};

use crate::index::Index;
use crate::names::add_all;
use crate::places::note_text;
use kern_model::DevName;
use net_rows::{NameKind, NameRow, RadioRow, WifiRow, vlan_parts};
use net_rules::Inputs;
use plane_io::{Items, Memory, Text};
use std::alloc::Global;
use std::collections::{BTreeMap, BTreeSet};

/// A port of a radio, and the interface that its row names.
#[derive(Drop)]
pub struct PortAnswer {
    pub interface: Text,
    pub port: DevName,
}

/// A port of a radio, and the bridge that it joins.
#[derive(Clone, Copy)]
pub struct PortJoin {
    pub bridge: DevName,
    pub port: DevName,
}

/// The index of inputs with the ports of radios.
#[derive(Drop)]
pub struct RadioPorts {
    pub index: Index,
    pub answered: Vec<PortAnswer>,
    /// The places in `answered` by interface; of one interface the first.
    pub answers: BTreeMap<Text, usize>,
    pub joined: Vec<PortJoin>,
    /// The ports that join each bridge, in the order of `joined`.
    pub joining: BTreeMap<DevName, Vec<DevName>>,
}

/// The ports that join bridges, in the order in which they came, each once.
#[derive(Drop)]
pub struct Joins {
    pub list: Vec<PortJoin>,
    pub ports: BTreeSet<DevName>,
}

impl RadioPorts {
    /// The ports of the radios of inputs.
    pub fn of(alloc: Global, inputs: &Inputs) -> Result<RadioPorts, Memory>
        ensures { IfOk result (λ ports. ArePortsOf inputs.now ports) }
    {
        let index = Index::of(alloc, inputs)?;
        let answered = answered_ports(alloc, &index, inputs, inputs.conf.radios.as_slice())?;
        let answers = answer_places(alloc, answered.as_slice())?;
        let owned = named_ports(alloc, inputs.conf.names.as_slice())?;
        let joined = joined_ports(alloc, &index, inputs, &owned, answered.as_slice())?;
        let joining = ports_by_bridge(alloc, joined.as_slice())?;
        Ok(RadioPorts {
            index,
            answered,
            answers,
            joined,
            joining,
        })
    }

    /// The first port of a radio whose row names the interface.
    pub fn first_port(&self, interface: &Text) -> Option<DevName>
        requires { HasPlaces self.now.answers
            (map (λ answer. answer.interface) self.now.answered.items) }
        ensures { result ≡ option_map (λ answer. answer.port)
            (find (λ answer. bytes_eq answer.interface
            interface.now) (map as_answered self.now.answered.items)) }
    {
        match self.first_answer(interface) {
            Some(answer) => Some(answer.port),
            None => None,
        }
    }

    fn first_answer(&self, interface: &Text) -> Option<&PortAnswer>
        requires { HasPlaces self.now.answers
            (map (λ answer. answer.interface) self.now.answered.items) }
        ensures { option_copied result
            ≡ named (λ answer. answer.interface) self.now.answered.items interface.now }
    {
        match self.answers.get(interface) {
            Some(place) => self.answered.as_slice().get(*place),
            None => None,
        }
    }

    /// The ports of radios that join the bridge.
    pub fn ports_of(&self, bridge: &DevName) -> &[DevName]
        ensures { result.now ≡ group_in self.now.joining bridge.now }
    {
        match self.joining.get(bridge) {
            Some(ports) => ports.as_slice(),
            None => &[],
        }
    }
}

/// Whether the place is that of the first with that name.
pub fn is_first(places: &BTreeMap<Text, usize>, name: &Text, place: usize) -> bool
    ensures { result ≡ is_place place (get (slice_cmp nat_cmp) places.now name.now) }
{
    match places.get(name) {
        Some(first) => *first == place,
        None => false,
    }
}

/// Whether the name is never made.
pub fn is_plain(index: &Index, inputs: &Inputs, name: &DevName) -> bool
    requires { IsIndexOf inputs.now index.now }
    ensures { result ≡ rows.is_plain inputs.now.conf name.now }
{
    match index.row(inputs, name) {
        Some(row) => is_plain_kind(&row.kind),
        None => vlan_parts(name).is_none(),
    }
}

fn is_plain_kind(kind: &NameKind) -> bool
    ensures { result ≡ rows.is_plain_kind kind.now }
{
    match kind {
        NameKind::Plain => true,
        NameKind::Bridge { .. } => false,
        NameKind::Vlan { .. } => false,
    }
}

/// Whether the name is a bridge.
pub fn is_bridge(index: &Index, inputs: &Inputs, name: &DevName) -> bool
    requires { IsIndexOf inputs.now index.now }
    ensures { result ≡ rows.is_bridge inputs.now.conf name.now }
{
    match index.row(inputs, name) {
        Some(row) => is_bridge_kind(&row.kind),
        None => false,
    }
}

fn is_bridge_kind(kind: &NameKind) -> bool
    ensures { result ≡ rows.is_bridge_kind kind.now }
{
    match kind {
        NameKind::Plain => false,
        NameKind::Bridge { .. } => true,
        NameKind::Vlan { .. } => false,
    }
}

// The own ports of all bridges.
fn named_ports(alloc: Global, names: &[NameRow]) -> Result<BTreeSet<DevName>, Memory>
    ensures { IfOk result (λ ports. HasNames ports (λ q. list_any (λ row. list_any
        (λ other. bytes_eq other q) (rows.ports_of_kind row.kind)) names.now)) }
{
    let mut ports = BTreeSet::new(alloc);
    for row in names {
        add_ports_of(&mut ports, &row.kind)?;
    }
    Ok(ports)
}

fn add_ports_of(ports: &mut BTreeSet<DevName>, kind: &NameKind) -> Result<(), Memory>
    ensures { OnOk result (Adds ports.old ports.new
        (λ q. list_any (λ other. bytes_eq other q) (rows.ports_of_kind kind.now))) }
{
    match kind {
        NameKind::Plain => Ok(()),
        NameKind::Bridge { ports: own, .. } => add_all(ports, own.as_slice()),
        NameKind::Vlan { .. } => Ok(()),
    }
}

/// Whether the name is among these.
pub fn has_name(names: &[DevName], name: &DevName) -> bool
    ensures { result ≡ list_any (λ other. bytes_eq other name.now) names.now }
{
    names.iter().any(|other| other.text() == name.text())
}

// The ports that the latest answers to the requests of radios tell.
fn answered_ports(
    alloc: Global,
    index: &Index,
    inputs: &Inputs,
    radios: &[RadioRow],
) -> Result<Vec<PortAnswer>, Memory>
    requires index { IsIndexOf inputs.now index.now }
    requires radios { radios.now ≡ inputs.now.conf.radios }
    ensures { IfOk result (λ ports. map as_answered ports.items
        ≡ flat_map (spec.ports_of_radio (facts_of inputs.now))
        (firsts (λ row. row.name) radios.now)) }
{
    let mut ports = Vec::new(alloc);
    for (place, radio) in radios.iter().enumerate() {
        add_if_first(&mut ports, index, inputs, radio, place)?;
    }
    Ok(ports)
}

fn add_if_first(
    ports: &mut Vec<PortAnswer>,
    index: &Index,
    inputs: &Inputs,
    radio: &RadioRow,
    place: usize,
) -> Result<(), Memory>
    requires { IsIndexOf inputs.now index.now }
    ensures { OnOk result (map as_answered ports.new.items ≡ map as_answered ports.old.items
        ++ flat_map (spec.ports_of_radio (facts_of inputs.now)) (if is_place place
        (get (slice_cmp nat_cmp) index.now.radios radio.now.name) then radio.now ∷ [] else [])) }
{
    if !is_first(&index.radios, &radio.name, place) {
        return Ok(());
    }
    add_ports(ports, index, inputs, radio)
}

fn add_ports(
    ports: &mut Vec<PortAnswer>,
    index: &Index,
    inputs: &Inputs,
    radio: &RadioRow,
) -> Result<(), Memory>
    requires { IsIndexOf inputs.now index.now }
    ensures { OnOk result (map as_answered ports.new.items
        ≡ map as_answered ports.old.items ++ spec.ports_of_radio (facts_of inputs.now) radio.now) }
{
    match index.radio_request(inputs, &radio.name) {
        Some(found) => add_latest(ports, index, inputs, radio.rows.as_slice(), &found.ports),
        None => Ok(()),
    }
}

fn add_latest(
    ports: &mut Vec<PortAnswer>,
    index: &Index,
    inputs: &Inputs,
    rows: &[WifiRow],
    latest: &Option<Items<Option<DevName>>>,
) -> Result<(), Memory>
    requires { IsIndexOf inputs.now index.now }
    ensures { OnOk result (map as_answered ports.new.items
        ≡ map as_answered ports.old.items ++ filter_map (port_of_pair (facts_of inputs.now))
        (zip (enabled rows.now) (unwrap_or latest.now []))) }
{
    match latest {
        Some(told) => add_told(ports, index, inputs, rows, told.as_slice()),
        None => Ok(()),
    }
}

// Adds the ports that an answer tells for the enabled ones of these rows.
fn add_told(
    ports: &mut Vec<PortAnswer>,
    index: &Index,
    inputs: &Inputs,
    rows: &[WifiRow],
    told: &[Option<DevName>],
) -> Result<(), Memory>
    requires { IsIndexOf inputs.now index.now }
    ensures { OnOk result (map as_answered ports.new.items ≡ map as_answered ports.old.items
        ++ filter_map (port_of_pair (facts_of inputs.now)) (zip (enabled rows.now) told.now)) }
{
    let mut rest = told;
    for row in rows {
        if !row.disabled {
            let Some((port, more)) = rest.split_first() else {
                return Ok(());
            };
            add_port(ports, index, inputs, &row.network, port)?;
            rest = more;
        }
    }
    Ok(())
}

fn add_port(
    ports: &mut Vec<PortAnswer>,
    index: &Index,
    inputs: &Inputs,
    network: &Option<Text>,
    port: &Option<DevName>,
) -> Result<(), Memory>
    requires { IsIndexOf inputs.now index.now }
    ensures { OnOk result (map as_answered ports.new.items ≡ map as_answered ports.old.items
        ++ option_to_list (spec.answered_port (facts_of inputs.now) network.now port.now)) }
{
    let Some(interface) = network else {
        return Ok(());
    };
    let Some(port) = port else {
        return Ok(());
    };
    if is_plain(index, inputs, port) {
        let interface = interface.copy()?;
        ports.push(PortAnswer {
            interface,
            port: *port,
        })?;
    }
    Ok(())
}

// The places of answers by interface; of one interface the first.
fn answer_places(alloc: Global, answered: &[PortAnswer]) -> Result<BTreeMap<Text, usize>, Memory>
    ensures { IfOk result (λ places. HasPlaces places
        (map (λ answer. answer.interface) answered.now)) }
{
    let mut places = BTreeMap::new(alloc);
    for (place, answer) in answered.iter().enumerate() {
        note_text(&mut places, &answer.interface, place)?;
    }
    Ok(places)
}

// The ports that join bridges, of one port the first.
fn joined_ports(
    alloc: Global,
    index: &Index,
    inputs: &Inputs,
    owned: &BTreeSet<DevName>,
    answered: &[PortAnswer],
) -> Result<Vec<PortJoin>, Memory>
    requires index { IsIndexOf inputs.now index.now }
    requires owned { HasNames owned.now (rows.is_named_port inputs.now.conf) }
    ensures { IfOk result (λ ports. map as_joined ports.items ≡ firsts (λ joins. joins.port)
        (filter_map (spec.joined (facts_of inputs.now)) (map as_answered answered.now))) }
{
    let mut joins = Joins {
        list: Vec::new(alloc),
        ports: BTreeSet::new(alloc),
    };
    for answer in answered {
        add_join_of(&mut joins, index, inputs, owned, answer)?;
    }
    Ok(joins.list)
}

fn add_join_of(
    joins: &mut Joins,
    index: &Index,
    inputs: &Inputs,
    owned: &BTreeSet<DevName>,
    answer: &PortAnswer,
) -> Result<(), Memory>
    requires index { IsIndexOf inputs.now index.now }
    requires owned { HasNames owned.now (rows.is_named_port inputs.now.conf) }
    ensures { (all : List RadioPort) → AreJoins all joins.old → OnOk result (AreJoins (all
        ++ option_to_list (spec.joined (facts_of inputs.now) (as_answered answer.now))) joins.new) }
{
    match join_of(index, inputs, owned, answer) {
        Some(join) => joins.add(join),
        None => Ok(()),
    }
}

fn join_of(
    index: &Index,
    inputs: &Inputs,
    owned: &BTreeSet<DevName>,
    answer: &PortAnswer,
) -> Option<PortJoin>
    requires index { IsIndexOf inputs.now index.now }
    requires owned { HasNames owned.now (rows.is_named_port inputs.now.conf) }
    ensures { option_map as_joined result
        ≡ spec.joined (facts_of inputs.now) (as_answered answer.now) }
{
    match index.interface(inputs, &answer.interface) {
        Some(row) => join_by(index, inputs, owned, answer, &row.device),
        None => None,
    }
}

fn join_by(
    index: &Index,
    inputs: &Inputs,
    owned: &BTreeSet<DevName>,
    answer: &PortAnswer,
    device: &Option<DevName>,
) -> Option<PortJoin>
    requires index { IsIndexOf inputs.now index.now }
    requires owned { HasNames owned.now (rows.is_named_port inputs.now.conf) }
    ensures { option_map as_joined result
        ≡ option_and_then (join_to inputs.now.conf answer.now.port) device.now }
{
    let Some(device) = device else {
        return None;
    };
    let is_owned = owned.contains(&answer.port);
    if is_bridge(index, inputs, device) & !is_owned {
        return Some(PortJoin {
            bridge: *device,
            port: answer.port,
        });
    }
    None
}

impl Joins {
    /// Adds a port with its bridge, where the port has joined none.
    pub fn add(&mut self, join: PortJoin) -> Result<(), Memory>
        ensures { (all : List RadioPort) → AreJoins all self.old
            → OnOk result (AreJoins (all ++ as_joined join ∷ []) self.new) }
    {
        if self.ports.contains(&join.port) {
            return Ok(());
        }
        self.list.push(join)?;
        let _added = self.ports.insert(join.port)?;
        Ok(())
    }
}

// The ports that join each bridge.
fn ports_by_bridge(
    alloc: Global,
    joins: &[PortJoin],
) -> Result<BTreeMap<DevName, Vec<DevName>>, Memory>
    ensures { IfOk result (λ groups. HasPorts groups (map as_joined joins.now)) }
{
    let mut groups = BTreeMap::new(alloc);
    for join in joins {
        add_to_group(alloc, &mut groups, join.bridge, join.port)?;
    }
    Ok(groups)
}

fn add_to_group(
    alloc: Global,
    groups: &mut BTreeMap<DevName, Vec<DevName>>,
    bridge: DevName,
    port: DevName,
) -> Result<(), Memory>
    ensures { OnOk result ((q : List ℕ) → group_in groups.new q
        ≡ group_in groups.old q ++ (if bytes_eq bridge q then port ∷ [] else [])) }
{
    let mut group = take_group(alloc, groups, &bridge);
    group.push(port)?;
    let _none = groups.insert(bridge, group)?;
    Ok(())
}

// Takes the ports of a bridge out of the map.
fn take_group(
    alloc: Global,
    groups: &mut BTreeMap<DevName, Vec<DevName>>,
    bridge: &DevName,
) -> Vec<DevName>
    ensures ports { result.items ≡ group_in groups.old bridge.now }
    ensures others { (q : List ℕ) → get (slice_cmp nat_cmp) groups.new q
        ≡ (if is_at (slice_cmp nat_cmp bridge.now) q then None
        else get (slice_cmp nat_cmp) groups.old q) }
{
    match groups.remove(bridge) {
        Some(group) => group,
        None => Vec::new(alloc),
    }
}
