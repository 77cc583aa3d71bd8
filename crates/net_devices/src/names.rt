ghost use Rattle.std.specs.Prelude.{◌≡◌, ◌<◌, ◌∷◌, IfOk, OnOk};
ghost use Rattle.std.specs.List.{flat_map};
ghost use Rattle.net_devices.specs.EachOnce.{with_names};
ghost use Rattle.net_devices.specs.Names as spec;

use crate::each_once::NamesOnce;
use crate::said::{DeviceSection, Said, StatedKind};
use crate::said_index::SaidIndex;
use kern_model::DevName;
use net_rows::{Stated, VlanParts, vlan_parts};
use plane_io::{Items, Memory};
use std::alloc::Global;

/// How many lowers can be implied one under another: a name has at most 15 bytes.
pub const MOST_LOWERS: usize = 15;

/// What a name of the form X.N stands for, where its section, if there is one, has no type.
pub fn implied(said: &SaidIndex, name: &DevName) -> Option<VlanParts>
    ensures { result ≡ spec.implied said.now name.now }
{
    match said.section_of(name) {
        Some(section) => implied_by_kind(name, &section.kind),
        None => vlan_parts(name),
    }
}

fn implied_by_kind(name: &DevName, kind: &StatedKind) -> Option<VlanParts>
    ensures { result ≡ spec.implied_by_kind name.now kind.now }
{
    match kind {
        StatedKind::Untyped => vlan_parts(name),
        StatedKind::Wrong => None,
        StatedKind::Bridge { .. } => None,
        StatedKind::Vlan { .. } => None,
    }
}

/// The names of the sections in file order, then all that are mentioned, section by section, each
/// at its first place.
pub fn all_names(alloc: Global, said: &SaidIndex) -> Result<Items<DevName>, Memory>
    ensures { IfOk result (λ names. names ≡ spec.names said.now) }
{
    let mut names = NamesOnce::new(alloc);
    let sayings = said.as_slice();
    for section in sayings {
        add_own_name(&mut names, section)?;
    }
    for saying in sayings {
        add_mentioned_by(&mut names, said, saying)?;
    }
    Ok(names.into_items())
}

fn add_own_name(names: &mut NamesOnce, saying: &Said) -> Result<(), Memory>
    ensures { OnOk result (names.new ≡ with_names names.old (spec.own_name saying.now)) }
{
    if let Said::Device(section) = saying {
        if let Stated::Read(name) = &section.name {
            names.add(name)?;
        }
    }
    Ok(())
}

fn add_mentioned_by(names: &mut NamesOnce, said: &SaidIndex, saying: &Said) -> Result<(), Memory>
    ensures { OnOk result (names.new
        ≡ with_names names.old (spec.mentioned_by said.now saying.now)) }
{
    match saying {
        Said::Interface(device) => add_mentioned(names, said, device, MOST_LOWERS),
        Said::Device(section) => add_mentioned_by_section(names, said, section),
    }
}

fn add_mentioned_by_section(
    names: &mut NamesOnce,
    said: &SaidIndex,
    section: &DeviceSection,
) -> Result<(), Memory>
    ensures { OnOk result (names.new ≡ with_names names.old
        (spec.mentioned_by_kind said.now section.now.name section.now.kind)) }
{
    match &section.kind {
        StatedKind::Untyped => add_mentioned_by_name(names, said, &section.name),
        StatedKind::Wrong => Ok(()),
        StatedKind::Bridge { ports, .. } => add_all_mentioned(names, said, ports.as_slice()),
        StatedKind::Vlan { lower, .. } => add_mentioned_if_read(names, said, lower),
    }
}

fn add_all_mentioned(
    names: &mut NamesOnce,
    said: &SaidIndex,
    ports: &[DevName],
) -> Result<(), Memory>
    ensures { OnOk result (names.new ≡ with_names names.old
        (flat_map (spec.mentioned said.now) ports.now)) }
{
    for port in ports {
        add_mentioned(names, said, port, MOST_LOWERS)?;
    }
    Ok(())
}

fn add_mentioned_if_read(
    names: &mut NamesOnce,
    said: &SaidIndex,
    stated: &Stated<DevName>,
) -> Result<(), Memory>
    ensures { OnOk result (names.new ≡ with_names names.old
        (spec.mentioned_if_read said.now stated.now)) }
{
    if let Stated::Read(name) = stated {
        return add_mentioned(names, said, name, MOST_LOWERS);
    }
    Ok(())
}

fn add_mentioned_by_name(
    names: &mut NamesOnce,
    said: &SaidIndex,
    stated: &Stated<DevName>,
) -> Result<(), Memory>
    ensures { OnOk result (names.new ≡ with_names names.old
        (spec.mentioned_by_name said.now stated.now)) }
{
    if let Stated::Read(name) = stated {
        if let Some(parts) = vlan_parts(name) {
            return add_mentioned(names, said, &parts.lower, MOST_LOWERS);
        }
    }
    Ok(())
}

// Adds the name, and at most so many lowers that are implied one under another.
fn add_mentioned(
    names: &mut NamesOnce,
    said: &SaidIndex,
    name: &DevName,
    more: usize,
) -> Result<(), Memory>
    ensures { OnOk result (names.new ≡ with_names names.old
        (spec.with_lowers said.now more name.now)) }
{
    names.add(name)?;
    if more == 0 {
        return Ok(());
    }
    match implied(said, name) {
        Some(parts) => add_mentioned(names, said, &parts.lower, more - 1),
        None => Ok(()),
    }
}
