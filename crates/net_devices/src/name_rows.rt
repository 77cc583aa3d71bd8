ghost use Rattle.std.specs.Prelude.{◌≡◌, Some, IfOk, OnOk};
ghost use Rattle.std.specs.Option.{option_copied};
ghost use Rattle.net_devices.specs.Faults as faults_spec;
ghost use Rattle.net_devices.specs.FoundVlans.{has_vlan, HasVlanToo};
ghost use Rattle.net_devices.specs.NameRows as spec;
ghost use Rattle.net_devices.specs.Kinds as kinds;
ghost use Rattle.net_devices.specs.Levels as levels;

use crate::counted::is_device;
use crate::faults::{add_if, add_kind_faults, add_naming_faults, add_value_faults};
use crate::kinds::{kind_of, name_if_read};
use crate::levels::{FoundLevels, MOST_LEVELS, level};
use crate::said::{DeviceSection, device_section};
use crate::said_index::SaidIndex;
use kern_model::{DevName, Mac};
use net_rows::{DeviceRow, FaultName, NameKind, NameRow, RowFault, Stated, VlanParts};
use plane_io::{Items, Memory};
use std::alloc::Global;
use std::collections::BTreeSet;
use uci_tree::Section;

/// The rows of all `device` sections, in file order. `said` is what the sections that count say.
pub fn rows_of_sections(
    alloc: Global,
    said: &SaidIndex,
    sections: &[Section],
) -> Result<Items<DeviceRow>, Memory>
    ensures { IfOk result (λ rows. rows ≡ spec.device_rows said.now sections.now) }
{
    let mut rows = Items::new(alloc);
    for section in sections {
        if is_device(section) {
            let device = device_section(alloc, section.options.as_slice())?;
            rows.push(device_row(alloc, said, &device)?)?;
        }
    }
    Ok(rows)
}

fn device_row(alloc: Global, said: &SaidIndex, section: &DeviceSection) -> Result<DeviceRow, Memory>
    ensures { IfOk result (λ row. row ≡ spec.device_row said.now section.now) }
{
    let mut faults = Items::new(alloc);
    add_naming_faults(&mut faults, &section.name)?;
    add_kind_faults(alloc, &mut faults, said, &section.kind)?;
    add_value_faults(&mut faults, section)?;
    Ok(DeviceRow {
        name: name_if_read(&section.name),
        faults,
    })
}

/// The rows of the names, in their order.
pub fn rows_of_names(
    alloc: Global,
    said: &SaidIndex,
    names: &[DevName],
) -> Result<Items<NameRow>, Memory>
    ensures { IfOk result (λ rows. rows ≡ spec.name_rows said.now names.now) }
{
    let mut levels = FoundLevels::new(alloc);
    let mut vlans = BTreeSet::new(alloc);
    let mut rows = Items::new(alloc);
    for name in names {
        let kind = kind_of(alloc, said, name)?;
        let is_same = note_vlan(&mut vlans, &kind)?;
        let level = level(alloc, said, &mut levels, name)?;
        rows.push(name_row(alloc, said, is_same, name, kind, level)?)?;
    }
    Ok(rows)
}

fn name_row(
    alloc: Global,
    said: &SaidIndex,
    is_same: bool,
    name: &DevName,
    kind: NameKind,
    level: u8,
) -> Result<NameRow, Memory>
    requires kind { kind ≡ kinds.kind_of said.now name.now }
    requires level { level ≡ levels.level said.now name.now }
    ensures { IfOk result (λ row. row ≡ spec.row_of said.now is_same name.now) }
{
    let section = said.section_of(name);
    let faults = name_faults(alloc, said, section, is_same, level > MOST_LEVELS)?;
    Ok(NameRow {
        name: *name,
        kind,
        level,
        broken: is_broken(faults.as_slice()),
        mtu: mtu_of(section),
        mac: mac_of(section),
        faults,
    })
}

fn name_faults(
    alloc: Global,
    said: &SaidIndex,
    section: Option<&DeviceSection>,
    is_same: bool,
    is_too_high: bool,
) -> Result<Items<RowFault>, Memory>
    ensures { IfOk result (λ faults. faults
        ≡ spec.name_faults said.now is_same is_too_high (option_copied section.entry)) }
{
    let mut faults = Items::new(alloc);
    if let Some(section) = section {
        add_kind_faults(alloc, &mut faults, said, &section.kind)?;
        add_if(&mut faults, is_same, FaultName::SameVlan)?;
        add_if(&mut faults, is_too_high, FaultName::TooHigh)?;
        add_value_faults(&mut faults, section)?;
        return Ok(faults);
    }
    add_if(&mut faults, is_same, FaultName::SameVlan)?;
    add_if(&mut faults, is_too_high, FaultName::TooHigh)?;
    Ok(faults)
}

fn is_broken(faults: &[RowFault]) -> bool
    ensures { result ≡ spec.is_broken faults.now }
{
    faults.iter().any(|fault| breaks(fault.name))
}

// Whether a fault makes the device unavailable.
fn breaks(name: FaultName) -> bool
    ensures { result ≡ spec.breaks name }
{
    match name {
        FaultName::BadPort => false,
        FaultName::BridgePort => false,
        FaultName::BadMtu => false,
        FaultName::BadMac => false,
        _ => true,
    }
}

fn mtu_of(section: Option<&DeviceSection>) -> Option<u32>
    ensures { result ≡ spec.mtu_of (option_copied section.entry) }
{
    match section {
        Some(section) => if_read(&section.mtu),
        None => None,
    }
}

fn mac_of(section: Option<&DeviceSection>) -> Option<Mac>
    ensures { result ≡ spec.mac_of (option_copied section.entry) }
{
    match section {
        Some(section) => if_read(&section.mac),
        None => None,
    }
}

fn if_read<T: Copy>(stated: &Stated<T>) -> Option<T>
    ensures { result ≡ kinds.if_read stated.now }
{
    match stated {
        Stated::Read(value) => Some(*value),
        Stated::Absent => None,
        Stated::Unread => None,
    }
}

// Notes the VLAN that a name of this kind is, and tells whether it was there.
fn note_vlan(vlans: &mut BTreeSet<(DevName, u16)>, kind: &NameKind) -> Result<bool, Memory>
    ensures same { IfOk result (λ same. same ≡ has_vlan vlans.old (spec.vlan_of kind.now)) }
    ensures noted { OnOk result (HasVlanToo vlans.old vlans.new (spec.vlan_of kind.now)) }
{
    match vlan_of(kind) {
        Some(vlan) => add_vlan(vlans, &vlan),
        None => Ok(false),
    }
}

fn add_vlan(vlans: &mut BTreeSet<(DevName, u16)>, vlan: &VlanParts) -> Result<bool, Memory>
    ensures same { IfOk result (λ same. same ≡ has_vlan vlans.old (Some vlan.now)) }
    ensures noted { OnOk result (HasVlanToo vlans.old vlans.new (Some vlan.now)) }
{
    let added = vlans.insert((vlan.lower, vlan.id))?;
    Ok(!added)
}

// The VLAN that a name is, where its section tells the identifier and the lower name.
fn vlan_of(kind: &NameKind) -> Option<VlanParts>
    ensures { result ≡ spec.vlan_of kind.now }
{
    match kind {
        NameKind::Vlan { lower, id } => told_vlan(lower, *id),
        NameKind::Plain => None,
        NameKind::Bridge { .. } => None,
    }
}

fn told_vlan(lower: &Option<DevName>, id: u16) -> Option<VlanParts>
    ensures { result ≡ spec.told_vlan lower.now id }
{
    if id == 0 {
        return None;
    }
    match lower {
        Some(lower) => Some(VlanParts { lower: *lower, id }),
        None => None,
    }
}
