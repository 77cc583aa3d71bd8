ghost use Rattle.std.specs.Prelude.{◌≡◌, ◌++◌, map, false, IfOk, slice_index_or};
ghost use Rattle.std.specs.List.{list_any};
ghost use Rattle.net_rules.specs.Facts.{Facts};
ghost use Rattle.net_rules.specs.RadioPorts.{radio_ports_of};
ghost use Rattle.net_rules.specs.Standing.{standing_of_row};
ghost use Rattle.net_rules.specs.Available as spec;
ghost use Rattle.net_rules.specs.Inputs.{facts_of};
ghost use Rattle.net_view.specs.RadioPorts.{ArePortsOf};
ghost use Rattle.net_view.specs.Levels.{test_of, below_option, without_row};
ghost use Rattle.net_view.specs.Levels.{IsTold, IsToldBy, IsAvailability, IsLink, AreLevelsOf};

use crate::radio_ports::RadioPorts;
use kern_model::DevName;
use net_rows::{NameKind, NameRow, vlan_parts};
use net_rules::Inputs;
use plane_io::Memory;
use std::alloc::Global;

/// How many levels of names there are.
pub const LEVELS: u8 = 8;

/// What is asked of names.
#[derive(Clone, Copy)]
pub enum Question {
    Available,
    Link,
}

/// The answers to a question for the rows of names, found by so many levels.
#[derive(Drop)]
pub struct Told {
    pub question: Question,
    pub levels: u8,
    pub by_row: Vec<bool>,
}

/// The index and the ports of radios, with the names that are available and those that have link.
#[derive(Drop)]
pub struct Levels {
    pub ports: RadioPorts,
    pub available: Told,
    pub link: Told,
}

impl Levels {
    /// The answers for the names of inputs.
    pub fn of(alloc: Global, inputs: &Inputs) -> Result<Levels, Memory>
        ensures { IfOk result (λ levels. AreLevelsOf inputs.now levels) }
    {
        let ports = RadioPorts::of(alloc, inputs)?;
        let available = availability(alloc, &ports, inputs)?;
        let link = links(alloc, &ports, inputs, &available)?;
        Ok(Levels {
            ports,
            available,
            link,
        })
    }

    /// Whether the name is available.
    pub fn is_available(&self, inputs: &Inputs, name: &DevName) -> bool
        requires { AreLevelsOf inputs.now self.now }
        ensures { result ≡ spec.available (facts_of inputs.now) name.now }
    {
        tells(&self.ports, inputs, &self.available, name)
    }

    /// Whether the name has link.
    pub fn has_link(&self, inputs: &Inputs, name: &DevName) -> bool
        requires { AreLevelsOf inputs.now self.now }
        ensures { result ≡ spec.link (facts_of inputs.now) name.now }
    {
        tells(&self.ports, inputs, &self.link, name)
    }
}

// Whether the name is present.
fn is_present(ports: &RadioPorts, inputs: &Inputs, name: &DevName) -> bool
    requires { ArePortsOf inputs.now ports.now }
    ensures { result ≡ spec.is_present (facts_of inputs.now) name.now }
{
    ports.index.device(inputs, name).is_some()
}

// Whether the name is present with carrier.
fn has_carrier(ports: &RadioPorts, inputs: &Inputs, name: &DevName) -> bool
    requires { ArePortsOf inputs.now ports.now }
    ensures { result ≡ spec.has_carrier (facts_of inputs.now) name.now }
{
    match ports.index.device(inputs, name) {
        Some(entry) => entry.1.carrier,
        None => false,
    }
}

// What is told of a name.
fn tells(ports: &RadioPorts, inputs: &Inputs, told: &Told, name: &DevName) -> bool
    requires ports { ArePortsOf inputs.now ports.now }
    requires told { IsTold (facts_of inputs.now) told.now }
    ensures { result ≡ test_of (facts_of inputs.now) told.now name.now }
{
    match ports.index.names.get(name) {
        Some(place) => answer_at(&told.by_row, *place),
        None => {
            let is_told = tells_without_row(ports, inputs, told.question, name);
            (told.levels > 0) & is_told
        }
    }
}

fn answer_at(answers: &[bool], place: usize) -> bool
    ensures { result ≡ slice_index_or answers.now place false }
{
    match answers.get(place) {
        Some(answer) => *answer,
        None => false,
    }
}

// A name without a row is plain, and one of the form X.N is never there.
fn tells_without_row(
    ports: &RadioPorts,
    inputs: &Inputs,
    question: Question,
    name: &DevName,
) -> bool
    requires { ArePortsOf inputs.now ports.now }
    ensures { result ≡ without_row (facts_of inputs.now) question name.now }
{
    let is_there = match question {
        Question::Available => is_present(ports, inputs, name),
        Question::Link => has_carrier(ports, inputs, name),
    };
    is_there & vlan_parts(name).is_none()
}

fn tells_any(ports: &RadioPorts, inputs: &Inputs, told: &Told, names: &[DevName]) -> bool
    requires ports { ArePortsOf inputs.now ports.now }
    requires told { IsTold (facts_of inputs.now) told.now }
    ensures { result ≡ list_any (test_of (facts_of inputs.now) told.now) names.now }
{
    for name in names {
        if tells(ports, inputs, told, name) {
            return true;
        }
    }
    false
}

// Whether it is told of a port of the bridge, one of these own ones or one of a radio.
fn tells_port(
    ports: &RadioPorts,
    inputs: &Inputs,
    told: &Told,
    bridge: &DevName,
    own: &[DevName],
) -> bool
    requires ports { ArePortsOf inputs.now ports.now }
    requires told { IsTold (facts_of inputs.now) told.now }
    ensures { result ≡ list_any (test_of (facts_of inputs.now) told.now)
        (own.now ++ radio_ports_of (facts_of inputs.now) bridge.now) }
{
    let is_own = tells_any(ports, inputs, told, own);
    let is_joined = tells_any(ports, inputs, told, ports.ports_of(bridge));
    is_own | is_joined
}

// Whether it is told of the name under a VLAN, where there is one.
fn tells_lower(ports: &RadioPorts, inputs: &Inputs, told: &Told, lower: &Option<DevName>) -> bool
    requires ports { ArePortsOf inputs.now ports.now }
    requires told { IsTold (facts_of inputs.now) told.now }
    ensures { result ≡ below_option (test_of (facts_of inputs.now) told.now) lower.now }
{
    match lower {
        Some(lower) => tells(ports, inputs, told, lower),
        None => false,
    }
}

// Whether a name is available, by what is told of those below it.
fn opens(ports: &RadioPorts, inputs: &Inputs, below: &Told, name: &DevName) -> bool
    requires ports { ArePortsOf inputs.now ports.now }
    requires told { IsTold (facts_of inputs.now) below.now }
    ensures { result ≡ spec.opens_at (facts_of inputs.now)
        (test_of (facts_of inputs.now) below.now) name.now }
{
    match ports.index.row(inputs, name) {
        Some(row) => opens_by_row(ports, inputs, below, name, row),
        None => tells_without_row(ports, inputs, Question::Available, name),
    }
}

fn opens_by_row(
    ports: &RadioPorts,
    inputs: &Inputs,
    below: &Told,
    name: &DevName,
    row: &NameRow,
) -> bool
    requires ports { ArePortsOf inputs.now ports.now }
    requires told { IsTold (facts_of inputs.now) below.now }
    ensures { result ≡ spec.opens (spec.is_present (facts_of inputs.now) name.now)
        (test_of (facts_of inputs.now) below.now)
        (standing_of_row row.now (radio_ports_of (facts_of inputs.now) name.now)) }
{
    let is_present = is_present(ports, inputs, name);
    if row.broken {
        return false;
    }
    match &row.kind {
        NameKind::Plain => is_present,
        NameKind::Bridge { empty, ports: own } => {
            let has_port = tells_port(ports, inputs, below, name, own.as_slice());
            !is_present & (*empty | has_port)
        }
        NameKind::Vlan { lower, .. } => {
            let is_over = tells_lower(ports, inputs, below, lower);
            !is_present & is_over
        }
    }
}

// Whether a name has link, by what is told of those below it.
fn links_up(
    ports: &RadioPorts,
    inputs: &Inputs,
    available: &Told,
    below: &Told,
    name: &DevName,
) -> bool
    requires ports { ArePortsOf inputs.now ports.now }
    requires available { IsAvailability (facts_of inputs.now) available.now }
    requires told { IsTold (facts_of inputs.now) below.now }
    ensures { result ≡ spec.links_at (facts_of inputs.now)
        (test_of (facts_of inputs.now) below.now) name.now }
{
    match ports.index.row(inputs, name) {
        Some(row) => {
            let is_ready = tells(ports, inputs, available, name);
            links_by_row(ports, inputs, below, name, row, is_ready)
        }
        None => tells_without_row(ports, inputs, Question::Link, name),
    }
}

fn links_by_row(
    ports: &RadioPorts,
    inputs: &Inputs,
    below: &Told,
    name: &DevName,
    row: &NameRow,
    is_ready: bool,
) -> bool
    requires ports { ArePortsOf inputs.now ports.now }
    requires told { IsTold (facts_of inputs.now) below.now }
    ensures { result ≡ spec.links (spec.has_carrier (facts_of inputs.now) name.now) is_ready
        (test_of (facts_of inputs.now) below.now)
        (standing_of_row row.now (radio_ports_of (facts_of inputs.now) name.now)) }
{
    match &row.kind {
        NameKind::Plain => has_carrier(ports, inputs, name),
        NameKind::Bridge { ports: own, .. } => {
            let has_link = tells_port(ports, inputs, below, name, own.as_slice());
            !row.broken & (is_ready & has_link)
        }
        NameKind::Vlan { lower, .. } => {
            let has_link = tells_lower(ports, inputs, below, lower);
            !row.broken & (is_ready & has_link)
        }
    }
}

// Which names are available.
fn availability(alloc: Global, ports: &RadioPorts, inputs: &Inputs) -> Result<Told, Memory>
    requires { ArePortsOf inputs.now ports.now }
    ensures { IfOk result (λ told. IsAvailability (facts_of inputs.now) told) }
{
    let mut told = nothing_told(alloc, inputs.conf.names.as_slice(), Question::Available)?;
    for level in 0..LEVELS {
        let by_row = opened(alloc, ports, inputs, &told, inputs.conf.names.as_slice())?;
        told = Told {
            question: Question::Available,
            levels: level + 1,
            by_row,
        };
    }
    Ok(told)
}

// Which names have link.
fn links(
    alloc: Global,
    ports: &RadioPorts,
    inputs: &Inputs,
    available: &Told,
) -> Result<Told, Memory>
    requires ports { ArePortsOf inputs.now ports.now }
    requires available { IsAvailability (facts_of inputs.now) available.now }
    ensures { IfOk result (λ told. IsLink (facts_of inputs.now) told) }
{
    let mut told = nothing_told(alloc, inputs.conf.names.as_slice(), Question::Link)?;
    for level in 0..LEVELS {
        let by_row = linked(
            alloc,
            ports,
            inputs,
            available,
            &told,
            inputs.conf.names.as_slice(),
        )?;
        told = Told {
            question: Question::Link,
            levels: level + 1,
            by_row,
        };
    }
    Ok(told)
}

// Of no level nothing is told.
fn nothing_told(alloc: Global, names: &[NameRow], question: Question) -> Result<Told, Memory>
    ensures { IfOk result (λ told. (facts : Facts) → names.now ≡ facts.conf.names
        → IsToldBy facts question 0 told) }
{
    let mut by_row = Vec::new(alloc);
    for row in names {
        by_row.push(false)?;
    }
    Ok(Told {
        question,
        levels: 0,
        by_row,
    })
}

fn opened(
    alloc: Global,
    ports: &RadioPorts,
    inputs: &Inputs,
    below: &Told,
    names: &[NameRow],
) -> Result<Vec<bool>, Memory>
    requires ports { ArePortsOf inputs.now ports.now }
    requires told { IsTold (facts_of inputs.now) below.now }
    ensures { IfOk result (λ answers. answers.items
        ≡ map (λ row. spec.opens_at (facts_of inputs.now)
        (test_of (facts_of inputs.now) below.now) row.name) names.now) }
{
    let mut answers = Vec::new(alloc);
    for row in names {
        answers.push(opens(ports, inputs, below, &row.name))?;
    }
    Ok(answers)
}

fn linked(
    alloc: Global,
    ports: &RadioPorts,
    inputs: &Inputs,
    available: &Told,
    below: &Told,
    names: &[NameRow],
) -> Result<Vec<bool>, Memory>
    requires ports { ArePortsOf inputs.now ports.now }
    requires available { IsAvailability (facts_of inputs.now) available.now }
    requires told { IsTold (facts_of inputs.now) below.now }
    ensures { IfOk result (λ answers. answers.items
        ≡ map (λ row. spec.links_at (facts_of inputs.now)
        (test_of (facts_of inputs.now) below.now) row.name) names.now) }
{
    let mut answers = Vec::new(alloc);
    for row in names {
        answers.push(links_up(ports, inputs, available, below, &row.name))?;
    }
    Ok(answers)
}
