//! What a bridge may want beside its link: the masters and the VLANs of its ports.
ghost use Rattle.std.specs.Prelude.{◌≡◌, ◌++◌, ◌∷◌, [], map, filter, IfOk, OnOk};
ghost use Rattle.std.specs.List.{flat_map, list_any};
ghost use Rattle.net_rules.specs.Rows as rows;
ghost use Rattle.net_rules.specs.Want.{local_vlan};
ghost use Rattle.graph_rules.specs.State.{name_list};
ghost use Rattle.graph_rules.specs.Answers.{given_ports, port_of};
ghost use Rattle.graph_wishes.specs.Wishes as may;
ghost use Rattle.graph_tables.specs.Wished.{wish_at, wishes_at};

use crate::single::{add, add_alone, is_name, wish};
use graph_names::Names;
use graph_objects::Wish;
use graph_rules::RadioPort;
use kern_model::{DevName, Object};
use net_rows::{VlanEntry, VlanRow};
use plane_io::Memory;
use std::alloc::Global;

/// Adds the ports that radios give to a bridge.
fn add_given(bridge: &DevName, radio: &[RadioPort], ports: &mut Vec<DevName>) -> Result<(), Memory>
    ensures { OnOk result (ports.new.items ≡ ports.old.items
        ++ given_ports (map port_of radio.now) bridge.now) }
{
    for joins in radio {
        if is_name(&joins.bridge, bridge) {
            ports.push(joins.port)?;
        }
    }
    Ok(())
}

/// The ports of a bridge: its own, then those that radios give to it.
pub(crate) fn ports_of(
    alloc: Global,
    bridge: &DevName,
    own: &[DevName],
    radio: &[RadioPort],
) -> Result<Vec<DevName>, Memory>
    ensures { IfOk result (λ ports. ports.items ≡ own.now
        ++ given_ports (map port_of radio.now) bridge.now) }
{
    let mut ports = Vec::new(alloc);
    for port in own {
        ports.push(*port)?;
    }
    add_given(bridge, radio, &mut ports)?;
    Ok(ports)
}

/// The masters of ports.
pub(crate) fn add_masters(
    names: &Names,
    bridge: &DevName,
    ports: &[DevName],
    wishes: &mut Vec<Wish>,
) -> Result<(), Memory>
    ensures { OnOk result (wishes.new.items ≡ wishes.old.items
        ++ wishes_at (name_list names.now) (map (may.may_master bridge.now) ports.now)) }
{
    for port in ports {
        let object = Object::Master {
            port: *port,
            bridge: *bridge,
        };
        add(wishes, wish(names, object, bridge, port))?;
    }
    Ok(())
}

fn is_own_entry(ports: &[DevName], entry: &VlanEntry) -> bool
    ensures { result ≡ may.is_own_entry ports.now entry.now }
{
    ports.iter().any(|port| is_name(port, &entry.port))
}

/// The VLAN of an entry.
fn add_entry(
    names: &Names,
    bridge: &DevName,
    id: u16,
    entry: &VlanEntry,
    wishes: &mut Vec<Wish>,
) -> Result<(), Memory>
    ensures { OnOk result (wishes.new.items ≡ wishes.old.items
        ++ wish_at (name_list names.now) (may.may_entry bridge.now id entry.now) ∷ []) }
{
    let object = Object::Vlan {
        bridge: *bridge,
        port: entry.port,
        id,
        pvid: entry.pvid,
        untagged: entry.untagged,
    };
    add(wishes, wish(names, object, bridge, &entry.port))
}

/// The VLANs of entries of own ports.
fn add_entries(
    names: &Names,
    bridge: &DevName,
    ports: &[DevName],
    row: &VlanRow,
    wishes: &mut Vec<Wish>,
) -> Result<(), Memory>
    ensures { OnOk result (wishes.new.items ≡ wishes.old.items
        ++ wishes_at (name_list names.now) (map (may.may_entry bridge.now row.now.id)
        (filter (may.is_own_entry ports.now) row.now.entries))) }
{
    let entries = row.entries.as_slice();
    for entry in entries {
        if is_own_entry(ports, entry) {
            add_entry(names, bridge, row.id, entry, wishes)?;
        }
    }
    Ok(())
}

/// The VLAN on the bridge itself.
fn add_local(
    names: &Names,
    bridge: &DevName,
    row: &VlanRow,
    wishes: &mut Vec<Wish>,
) -> Result<(), Memory>
    ensures { OnOk result (wishes.new.items ≡ wishes.old.items
        ++ wishes_at (name_list names.now) (map (may.may_alone bridge.now)
        (local_vlan bridge.now row.now.id row.now.local))) }
{
    if !row.local {
        return Ok(());
    }
    let object = Object::Vlan {
        bridge: *bridge,
        port: *bridge,
        id: row.id,
        pvid: false,
        untagged: false,
    };
    add_alone(names, bridge, object, wishes)
}

/// A VLAN of a bridge.
fn add_vlan(
    names: &Names,
    bridge: &DevName,
    ports: &[DevName],
    row: &VlanRow,
    wishes: &mut Vec<Wish>,
) -> Result<(), Memory>
    ensures { OnOk result (wishes.new.items ≡ wishes.old.items
        ++ wishes_at (name_list names.now) (may.vlan_mays bridge.now ports.now row.now)) }
{
    add_entries(names, bridge, ports, row, wishes)?;
    add_local(names, bridge, row, wishes)
}

/// Whether a VLAN is set on a bridge.
fn is_vlan_of(bridge: &DevName, row: &VlanRow) -> bool
    ensures { result ≡ rows.is_vlan_of bridge.now row.now }
{
    if row.passed_over {
        return false;
    }
    match &row.bridge {
        Some(other) => is_name(other, bridge),
        None => false,
    }
}

/// Whether a bridge filters: a VLAN is set on it.
pub(crate) fn is_filtering(bridge: &DevName, vlans: &[VlanRow]) -> bool
    ensures { result ≡ list_any (rows.is_vlan_of bridge.now) vlans.now }
{
    vlans.iter().any(|row| is_vlan_of(bridge, row))
}

/// The VLANs of a bridge.
pub(crate) fn add_vlans(
    names: &Names,
    bridge: &DevName,
    ports: &[DevName],
    vlans: &[VlanRow],
    wishes: &mut Vec<Wish>,
) -> Result<(), Memory>
    ensures { OnOk result (wishes.new.items ≡ wishes.old.items
        ++ wishes_at (name_list names.now) (flat_map (may.vlan_mays bridge.now ports.now)
        (filter (rows.is_vlan_of bridge.now) vlans.now))) }
{
    for row in vlans {
        if is_vlan_of(bridge, row) {
            add_vlan(names, bridge, ports, row, wishes)?;
        }
    }
    Ok(())
}
