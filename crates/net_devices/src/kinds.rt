ghost use Rattle.std.specs.Prelude.{◌≡◌, IfOk};
ghost use Rattle.net_rows.specs.Dotted as vlan_name;
ghost use Rattle.net_devices.specs.Kinds as spec;

use crate::levels::is_bridge;
use crate::said::StatedKind;
use crate::said_index::SaidIndex;
use kern_model::DevName;
use net_rows::{NameKind, Stated, vlan_parts};
use plane_io::{Items, Memory};
use std::alloc::Global;

/// The kind of a name, with the own ports of a bridge.
pub fn kind_of(alloc: Global, said: &SaidIndex, name: &DevName) -> Result<NameKind, Memory>
    ensures { IfOk result (λ kind. kind ≡ spec.kind_of said.now name.now) }
{
    match said.section_of(name) {
        Some(section) => kind_by(alloc, said, name, &section.kind),
        None => Ok(untyped_kind(name)),
    }
}

fn kind_by(
    alloc: Global,
    said: &SaidIndex,
    name: &DevName,
    kind: &StatedKind,
) -> Result<NameKind, Memory>
    ensures { IfOk result (λ made. made ≡ spec.kind_by said.now name.now kind.now) }
{
    match kind {
        StatedKind::Untyped => Ok(untyped_kind(name)),
        StatedKind::Wrong => Ok(NameKind::Plain),
        StatedKind::Bridge { empty, ports, .. } => {
            let ports = own_ports(alloc, said, name, ports.as_slice())?;
            Ok(NameKind::Bridge {
                empty: *empty,
                ports,
            })
        }
        StatedKind::Vlan { lower, id } => Ok(NameKind::Vlan {
            lower: name_if_read(lower),
            id: id_or_zero(id),
        }),
    }
}

fn untyped_kind(name: &DevName) -> NameKind
    ensures { result ≡ spec.untyped_kind (vlan_name.vlan_parts name.now) }
{
    match vlan_parts(name) {
        Some(parts) => NameKind::Vlan {
            lower: Some(parts.lower),
            id: parts.id,
        },
        None => NameKind::Plain,
    }
}

/// The name that was read.
pub fn name_if_read(stated: &Stated<DevName>) -> Option<DevName>
    ensures { result ≡ spec.if_read stated.now }
{
    match stated {
        Stated::Read(name) => Some(*name),
        Stated::Absent => None,
        Stated::Unread => None,
    }
}

/// The identifier that was read, or else 0.
pub fn id_or_zero(stated: &Stated<u16>) -> u16
    ensures { result ≡ spec.id_or_zero stated.now }
{
    match stated {
        Stated::Read(id) => *id,
        Stated::Absent => 0,
        Stated::Unread => 0,
    }
}

fn own_ports(
    alloc: Global,
    said: &SaidIndex,
    bridge: &DevName,
    ports: &[DevName],
) -> Result<Items<DevName>, Memory>
    ensures { IfOk result (λ own. own ≡ spec.own_ports said.now bridge.now ports.now) }
{
    let mut own = Items::new(alloc);
    for port in ports {
        if is_own_port(said, bridge, port) {
            own.push(*port)?;
        }
    }
    Ok(own)
}

fn is_own_port(said: &SaidIndex, bridge: &DevName, port: &DevName) -> bool
    ensures { result ≡ spec.is_own_port said.now bridge.now port.now }
{
    if is_bridge(said, port) {
        return false;
    }
    match said.owner(port) {
        Some(owner) => owner.text() == bridge.text(),
        None => false,
    }
}
