ghost use Rattle.std.specs.Prelude.{◌≡◌, ◌≤◌, ◌+◌, List, IfOk, OnOk, max};
ghost use Rattle.net_rows.specs.Dotted as vlan_name;
ghost use Rattle.net_devices.specs.Levels as spec;
ghost use Rattle.net_devices.specs.FoundLevels.{AreLevels};
ghost use Rattle.net_devices.specs.declared.said.Said.{Said};

use crate::said::StatedKind;
use crate::said_index::SaidIndex;
use kern_model::DevName;
use net_rows::{Stated, vlan_parts};
use plane_io::{Items, Memory};
use std::alloc::Global;
use std::collections::BTreeMap;

/// The highest level that a name may have.
pub const MOST_LEVELS: u8 = 8;

/// Whether the name is a bridge.
pub fn is_bridge(said: &SaidIndex, name: &DevName) -> bool
    ensures { result ≡ spec.is_bridge said.now name.now }
{
    match said.section_of(name) {
        Some(section) => is_bridge_kind(&section.kind),
        None => false,
    }
}

fn is_bridge_kind(kind: &StatedKind) -> bool
    ensures { result ≡ spec.is_bridge_kind kind.now }
{
    match kind {
        StatedKind::Bridge { .. } => true,
        StatedKind::Untyped => false,
        StatedKind::Wrong => false,
        StatedKind::Vlan { .. } => false,
    }
}

/// The names that are no bridges.
pub fn no_bridges(
    alloc: Global,
    said: &SaidIndex,
    names: &[DevName],
) -> Result<Items<DevName>, Memory>
    ensures { IfOk result (λ kept. kept ≡ spec.no_bridges said.now names.now) }
{
    let mut kept = Items::new(alloc);
    for name in names {
        if !is_bridge(said, name) {
            kept.push(*name)?;
        }
    }
    Ok(kept)
}

/// The names that a name stands on.
fn below(alloc: Global, said: &SaidIndex, name: &DevName) -> Result<Items<DevName>, Memory>
    ensures { IfOk result (λ names. names ≡ spec.below said.now name.now) }
{
    match said.section_of(name) {
        Some(section) => below_kind(alloc, said, name, &section.kind),
        None => implied_lower(alloc, name),
    }
}

fn below_kind(
    alloc: Global,
    said: &SaidIndex,
    name: &DevName,
    kind: &StatedKind,
) -> Result<Items<DevName>, Memory>
    ensures { IfOk result (λ names. names ≡ spec.below_kind said.now name.now kind.now) }
{
    match kind {
        StatedKind::Untyped => implied_lower(alloc, name),
        StatedKind::Wrong => Ok(Items::new(alloc)),
        StatedKind::Bridge { ports, .. } => no_bridges(alloc, said, ports.as_slice()),
        StatedKind::Vlan { lower, .. } => stated_lower(alloc, lower),
    }
}

fn implied_lower(alloc: Global, name: &DevName) -> Result<Items<DevName>, Memory>
    ensures { IfOk result (λ names. names ≡ spec.lower_of (vlan_name.vlan_parts name.now)) }
{
    let mut names = Items::new(alloc);
    if let Some(parts) = vlan_parts(name) {
        names.push(parts.lower)?;
    }
    Ok(names)
}

fn stated_lower(alloc: Global, stated: &Stated<DevName>) -> Result<Items<DevName>, Memory>
    ensures { IfOk result (λ names. names ≡ spec.stated_lower stated.now) }
{
    let mut names = Items::new(alloc);
    if let Stated::Read(lower) = stated {
        names.push(*lower)?;
    }
    Ok(names)
}

/// The levels that were found, each with how many levels down it was looked for. So each is looked
/// for once.
#[derive(Drop)]
pub struct FoundLevels {
    found: BTreeMap<(DevName, u8), u8>,
}

impl FoundLevels {
    /// None so far.
    pub fn new(alloc: Global) -> FoundLevels
        ensures { (said : List Said) → AreLevels said result }
    {
        FoundLevels {
            found: BTreeMap::new(alloc),
        }
    }
}

/// The level of a name, and one more than the most levels where it is too high.
pub fn level(
    alloc: Global,
    said: &SaidIndex,
    levels: &mut FoundLevels,
    name: &DevName,
) -> Result<u8, Memory>
    requires { AreLevels said.now levels.old }
    ensures kept { OnOk result (AreLevels said.now levels.new) }
    ensures level { IfOk result (λ level. level ≡ spec.level said.now name.now) }
{
    level_within(alloc, said, levels, name, MOST_LEVELS)
}

// The level of a name, looked for so many levels down.
fn level_within(
    alloc: Global,
    said: &SaidIndex,
    levels: &mut FoundLevels,
    name: &DevName,
    more: u8,
) -> Result<u8, Memory>
    requires few { more ≤ 8 }
    requires levels { AreLevels said.now levels.old }
    ensures kept { OnOk result (AreLevels said.now levels.new) }
    ensures level { IfOk result (λ level. level ≡ spec.level_within said.now more name.now) }
    ensures bound { IfOk result (λ level. level ≤ more + 1) }
{
    if more == 0 {
        return Ok(1);
    }
    if let Some(level) = levels.found.get(&(*name, more)).copied() {
        return Ok(level);
    }
    let mut highest = 0;
    let names = below(alloc, said, name)?;
    let lowers = names.as_slice();
    for lower in lowers {
        highest = highest.max(level_within(alloc, said, levels, lower, more - 1)?);
    }
    let level = level_over(is_bridge(said, name), highest);
    levels.found.insert((*name, more), level)?;
    Ok(level)
}

// One more than the highest level of what a name stands on; a bridge is at least on the second.
fn level_over(bridge: bool, highest: u8) -> u8
    requires { highest ≤ 8 }
    ensures level { result ≡ spec.level_over bridge highest }
    ensures bound { result ≤ max highest 1 + 1 }
{
    if bridge {
        highest.max(1) + 1
    } else {
        highest + 1
    }
}
