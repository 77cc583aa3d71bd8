ghost use Rattle.std.specs.Prelude.{◌≡◌, ◌∷◌, [], ℕ, List, IfOk, OnOk};
ghost use Rattle.std.specs.Option.{option_copied};
ghost use Rattle.uci_tree.specs.Index.{HasNoted};
ghost use Rattle.net_devices.specs.Names.{section_of};
ghost use Rattle.net_devices.specs.Kinds as kinds;
ghost use Rattle.net_devices.specs.Found as spec;

use crate::kinds::name_if_read;
use crate::said::{DeviceSection, Said, StatedKind};
use kern_model::DevName;
use net_rows::Stated;
use plane_io::{Items, Memory};
use std::alloc::Global;
use std::collections::BTreeMap;
use std::marker::Model;

/// What the sections that count say about the names of network devices, in file order. The section
/// of a name and the bridge of a port are found through maps. Contracts see the list.
#[derive(Drop)]
pub struct SaidIndex {
    said: Items<Said>,
    places: BTreeMap<DevName, usize>,
    owners: BTreeMap<DevName, DevName>,
}

impl Model for SaidIndex {
    ghost use Rattle.std.specs.Prelude.{List};
    ghost use Rattle.net_devices.specs.declared.said.Said.{Said};

    ghost Value = { List Said };

    ghost use Rattle.net_devices.specs.SaidInside.{said_view, IsIndexed};

    ghost view = { said_view };

    ghost invariant = { IsIndexed };
}

impl SaidIndex {
    /// Notes where the section of each name and the bridge of each port are found.
    pub fn new(alloc: Global, said: Items<Said>) -> Result<SaidIndex, Memory>
        ensures { IfOk result (λ index. index ≡ said) }
    {
        let places = places_of(alloc, said.as_slice())?;
        let owners = owners_of(alloc, said.as_slice())?;
        Ok(SaidIndex {
            said,
            places,
            owners,
        })
    }

    /// What the sections say.
    pub fn as_slice(&self) -> &[Said]
        ensures { result.now ≡ self.now }
    {
        self.said.as_slice()
    }

    /// The section of a name, among those that count.
    pub fn section_of(&self, name: &DevName) -> Option<&DeviceSection>
        ensures { option_copied result ≡ section_of self.now name.now }
    {
        let place = self.places.get(name).copied();
        section_at(self.said.as_slice(), place)
    }

    /// The first bridge in file order that names the port.
    pub fn owner(&self, port: &DevName) -> Option<DevName>
        ensures { result ≡ kinds.owner self.now port.now }
    {
        self.owners.get(port).copied()
    }
}

fn section_at(said: &[Said], place: Option<usize>) -> Option<&DeviceSection>
    ensures { option_copied result ≡ spec.section_at said.now place }
{
    let Some(place) = place else {
        return None;
    };
    match said.get(place) {
        Some(Said::Device(section)) => Some(section),
        Some(Said::Interface(_)) => None,
        None => None,
    }
}

// The place of the first section of each name.
fn places_of(alloc: Global, said: &[Said]) -> Result<BTreeMap<DevName, usize>, Memory>
    ensures { IfOk result (λ places. spec.HasPlaces places said.now) }
{
    let mut places = BTreeMap::new(alloc);
    for (place, saying) in said.iter().enumerate() {
        note_saying(&mut places, saying, place)?;
    }
    Ok(places)
}

fn note_saying(
    places: &mut BTreeMap<DevName, usize>,
    saying: &Said,
    place: usize,
) -> Result<(), Memory>
    ensures { OnOk result (spec.HasPlaceToo places.old places.new saying.now place) }
{
    match own_name(saying) {
        Some(name) => note(places, &name, place),
        None => Ok(()),
    }
}

/// The name that a `device` section gives.
pub fn own_name(saying: &Said) -> Option<DevName>
    ensures { result ≡ spec.name_of saying.now }
{
    match saying {
        Said::Device(section) => name_if_read(&section.name),
        Said::Interface(_) => None,
    }
}

// Notes the place of a name that has none.
fn note(places: &mut BTreeMap<DevName, usize>, name: &DevName, place: usize) -> Result<(), Memory>
    ensures { OnOk result (HasNoted places.old places.new name.now place) }
{
    if places.contains_key(name) {
        return Ok(());
    }
    places.insert(*name, place)?;
    Ok(())
}

// The first bridge that names each port.
fn owners_of(alloc: Global, said: &[Said]) -> Result<BTreeMap<DevName, DevName>, Memory>
    ensures { IfOk result (λ owners. spec.HasOwners owners said.now) }
{
    let mut owners = BTreeMap::new(alloc);
    for saying in said {
        add_owned_by(&mut owners, saying)?;
    }
    Ok(owners)
}

fn add_owned_by(owners: &mut BTreeMap<DevName, DevName>, saying: &Said) -> Result<(), Memory>
    ensures { OnOk result (spec.HasOwnedToo owners.old owners.new saying.now) }
{
    match saying {
        Said::Device(section) => add_owned(owners, &section.kind, name_if_read(&section.name)),
        Said::Interface(_) => Ok(()),
    }
}

fn add_owned(
    owners: &mut BTreeMap<DevName, DevName>,
    kind: &StatedKind,
    bridge: Option<DevName>,
) -> Result<(), Memory>
    ensures { OnOk result (spec.HasOwnedByKind owners.old owners.new kind.now bridge) }
{
    let Some(bridge) = bridge else {
        return Ok(());
    };
    match kind {
        StatedKind::Bridge { ports, .. } => add_ports(owners, &bridge, ports.as_slice()),
        StatedKind::Untyped => Ok(()),
        StatedKind::Wrong => Ok(()),
        StatedKind::Vlan { .. } => Ok(()),
    }
}

fn add_ports(
    owners: &mut BTreeMap<DevName, DevName>,
    bridge: &DevName,
    ports: &[DevName],
) -> Result<(), Memory>
    ensures { OnOk result (spec.HasPortsToo owners.old owners.new bridge.now ports.now) }
{
    for port in ports {
        add_port(owners, bridge, port)?;
    }
    Ok(())
}

// Notes the bridge of a port that has none.
fn add_port(
    owners: &mut BTreeMap<DevName, DevName>,
    bridge: &DevName,
    port: &DevName,
) -> Result<(), Memory>
    ensures { OnOk result (spec.HasPortsToo owners.old owners.new bridge.now (port.now ∷ [])) }
{
    if owners.contains_key(port) {
        return Ok(());
    }
    owners.insert(*port, *bridge)?;
    Ok(())
}
