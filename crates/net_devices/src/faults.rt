ghost use Rattle.std.specs.Prelude.{◌≡◌, ◌++◌, [], ◌∷◌, OnOk, map, filter};
ghost use Rattle.net_rows.specs.declared.fault_name.FaultName.TheVariants as fault;
ghost use Rattle.net_devices.specs.Faults as spec;
ghost use Rattle.net_devices.specs.Levels as levels;

use crate::levels::is_bridge;
use crate::said::{DeviceSection, StatedKind};
use crate::said_index::SaidIndex;
use kern_model::DevName;
use net_rows::{FaultName, RowFault, Stated};
use plane_io::{Items, Memory, Text};
use std::alloc::Global;

/// Adds a fault by itself, where it is there.
pub fn add_if(faults: &mut Items<RowFault>, there: bool, name: FaultName) -> Result<(), Memory>
    ensures { OnOk result (faults.new ≡ faults.old ++ spec.if_so there name) }
{
    if !there {
        return Ok(());
    }
    faults.push(RowFault {
        name,
        argument: None,
    })
}

/// Adds a fault about a port.
pub fn add_about(
    alloc: Global,
    faults: &mut Items<RowFault>,
    name: FaultName,
    port: &[u8],
) -> Result<(), Memory>
    ensures { OnOk result (faults.new ≡ faults.old ++ spec.about name port.now ∷ []) }
{
    let argument = Some(Text::from_bytes(alloc, port)?);
    faults.push(RowFault { name, argument })
}

/// Adds no name, or none that is a device name.
pub fn add_naming_faults(faults: &mut Items<RowFault>, name: &Stated<DevName>) -> Result<(), Memory>
    ensures { OnOk result (faults.new ≡ faults.old ++ spec.naming_faults name.now) }
{
    match name {
        Stated::Absent => add_if(faults, true, FaultName::NoName),
        Stated::Unread => add_if(faults, true, FaultName::BadName),
        Stated::Read(_) => Ok(()),
    }
}

/// Adds what is wrong with what a section states of its kind.
pub fn add_kind_faults(
    alloc: Global,
    faults: &mut Items<RowFault>,
    said: &SaidIndex,
    kind: &StatedKind,
) -> Result<(), Memory>
    ensures { OnOk result (faults.new ≡ faults.old ++ spec.kind_faults said.now kind.now) }
{
    match kind {
        StatedKind::Untyped => Ok(()),
        StatedKind::Wrong => add_if(faults, true, FaultName::WrongType),
        StatedKind::Bridge {
            ports,
            bad_ports,
            ..
        } => {
            add_about_texts(alloc, faults, FaultName::BadPort, bad_ports.as_slice())?;
            add_bridge_ports(alloc, faults, said, ports.as_slice())
        }
        StatedKind::Vlan { lower, id } => add_vlan_faults(faults, lower, id),
    }
}

fn add_vlan_faults(
    faults: &mut Items<RowFault>,
    lower: &Stated<DevName>,
    id: &Stated<u16>,
) -> Result<(), Memory>
    ensures { OnOk result (faults.new ≡ faults.old ++ spec.vlan_faults lower.now id.now) }
{
    add_if(faults, !is_read(id), FaultName::BadVid)?;
    add_if(faults, !is_read(lower), FaultName::BadLower)
}

/// Adds a fault about each of these texts.
pub fn add_about_texts(
    alloc: Global,
    faults: &mut Items<RowFault>,
    name: FaultName,
    texts: &[Text],
) -> Result<(), Memory>
    ensures { OnOk result (faults.new ≡ faults.old ++ map (spec.about name) texts.now) }
{
    for text in texts {
        add_about(alloc, faults, name, text.as_bytes())?;
    }
    Ok(())
}

/// Adds a fault about each of these ports.
pub fn add_about_names(
    alloc: Global,
    faults: &mut Items<RowFault>,
    name: FaultName,
    ports: &[DevName],
) -> Result<(), Memory>
    ensures { OnOk result (faults.new ≡ faults.old ++ map (spec.about name) ports.now) }
{
    for port in ports {
        add_about(alloc, faults, name, port.text())?;
    }
    Ok(())
}

fn add_bridge_ports(
    alloc: Global,
    faults: &mut Items<RowFault>,
    said: &SaidIndex,
    ports: &[DevName],
) -> Result<(), Memory>
    ensures { OnOk result (faults.new ≡ faults.old
        ++ map (spec.about fault.BridgePort) (filter (levels.is_bridge said.now) ports.now)) }
{
    for port in ports {
        if is_bridge(said, port) {
            add_about(alloc, faults, FaultName::BridgePort, port.text())?;
        }
    }
    Ok(())
}

/// Adds the faults of options that are passed over since they do not read.
pub fn add_value_faults(faults: &mut Items<RowFault>, section: &DeviceSection) -> Result<(), Memory>
    ensures { OnOk result (faults.new ≡ faults.old ++ spec.value_faults section.now) }
{
    add_if(faults, is_unread(&section.mtu), FaultName::BadMtu)?;
    add_if(faults, is_unread(&section.mac), FaultName::BadMac)
}

/// Whether a value was read.
pub fn is_read<T>(stated: &Stated<T>) -> bool
    ensures { result ≡ spec.is_read stated.now }
{
    match stated {
        Stated::Read(_) => true,
        Stated::Absent => false,
        Stated::Unread => false,
    }
}

fn is_unread<T>(stated: &Stated<T>) -> bool
    ensures { result ≡ spec.is_unread stated.now }
{
    match stated {
        Stated::Unread => true,
        Stated::Absent => false,
        Stated::Read(_) => false,
    }
}
