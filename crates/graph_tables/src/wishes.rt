//! What the rows of names, with ports of radios, can ever want, name by name.
ghost use Rattle.std.specs.Prelude.{◌≡◌, ◌<◌, ◌++◌, ◌∷◌, [], length, map, slice_index_or, is_some};
ghost use Rattle.std.specs.Prelude.{IfOk, OnOk, false};
ghost use Rattle.net_rows.specs.Dotted as dotted;
ghost use Rattle.net_rules.specs.Rows.{rowless};
ghost use Rattle.net_rules.specs.Standing.{Ports, Over};
ghost use Rattle.graph_rules.specs.State.{name_list};
ghost use Rattle.graph_rules.specs.Answers.{given_ports, port_of};
ghost use Rattle.graph_counts.specs.Sound.{BeginWithRows};
ghost use Rattle.graph_wishes.specs.Wishes.{mays, mays_of, mays_by};
ghost use Rattle.graph_tables.specs.Wished as spec;

use crate::bridges::{add_masters, add_vlans, is_filtering, ports_of};
use crate::single::{add_alone, add_mac, add_mtu, add_up};
use graph_names::Names;
use graph_objects::Wish;
use graph_rules::RadioPort;
use kern_model::{DevName, LinkKind, Object};
use net_rows::{NameKind, NameRow, VlanRow, vlan_parts};
use plane_io::Memory;
use std::alloc::Global;

/// A plain name.
fn add_plain(names: &Names, row: &NameRow, wishes: &mut Vec<Wish>) -> Result<(), Memory>
    ensures { OnOk result (wishes.new.items ≡ wishes.old.items
        ++ spec.wishes_at (name_list names.now) (spec.plain_mays row.now)) }
{
    add_up(names, &row.name, wishes)?;
    add_mac(names, &row.name, row.mac, wishes)
}

/// A bridge that no fault makes unavailable.
fn add_bridge(
    alloc: Global,
    names: &Names,
    row: &NameRow,
    own: &[DevName],
    vlans: &[VlanRow],
    radio: &[RadioPort],
    wishes: &mut Vec<Wish>,
) -> Result<(), Memory>
    ensures { OnOk result (wishes.new.items ≡ wishes.old.items
        ++ spec.wishes_at (name_list names.now)
        (spec.bridge_mays vlans.now row.now (own.now
        ++ given_ports (map port_of radio.now) row.now.name))) }
{
    let name = &row.name;
    add_up(names, name, wishes)?;
    let kind = LinkKind::Bridge {
        mac: row.mac,
        filtering: is_filtering(name, vlans),
    };
    add_alone(names, name, Object::Link { name: *name, kind }, wishes)?;
    let ports = ports_of(alloc, name, own, radio)?;
    let ports = ports.as_slice();
    add_masters(names, name, ports, wishes)?;
    add_vlans(names, name, ports, vlans, wishes)
}

/// A VLAN that no fault makes unavailable.
fn add_over(
    names: &Names,
    row: &NameRow,
    lower: DevName,
    id: u16,
    wishes: &mut Vec<Wish>,
) -> Result<(), Memory>
    ensures { OnOk result (wishes.new.items ≡ wishes.old.items
        ++ spec.wishes_at (name_list names.now) (spec.over_mays row.now lower id)) }
{
    let name = &row.name;
    add_up(names, name, wishes)?;
    let kind = LinkKind::Vlan {
        lower,
        id,
        mac: row.mac,
    };
    add_alone(names, name, Object::Link { name: *name, kind }, wishes)
}

/// A bridge or a VLAN.
fn add_made(
    alloc: Global,
    names: &Names,
    row: &NameRow,
    vlans: &[VlanRow],
    radio: &[RadioPort],
    wishes: &mut Vec<Wish>,
) -> Result<(), Memory>
    requires { row.now.broken ≡ false }
    ensures { OnOk result (wishes.new.items ≡ wishes.old.items
        ++ spec.wishes_at (name_list names.now)
        (spec.standing_mays vlans.now radio.now row.now)) }
{
    match &row.kind {
        NameKind::Plain => add_plain(names, row, wishes),
        NameKind::Bridge { ports, .. } => {
            add_bridge(alloc, names, row, ports.as_slice(), vlans, radio, wishes)
        }
        NameKind::Vlan {
            lower: Some(lower),
            id,
        } => add_over(names, row, *lower, *id, wishes),
        NameKind::Vlan { lower: None, .. } => Ok(()),
    }
}

/// What a row wants beside its MTU.
fn add_standing(
    alloc: Global,
    names: &Names,
    row: &NameRow,
    vlans: &[VlanRow],
    radio: &[RadioPort],
    wishes: &mut Vec<Wish>,
) -> Result<(), Memory>
    ensures { OnOk result (wishes.new.items ≡ wishes.old.items
        ++ spec.wishes_at (name_list names.now)
        (spec.standing_mays vlans.now radio.now row.now)) }
{
    if !row.broken {
        return add_made(alloc, names, row, vlans, radio, wishes);
    }
    match &row.kind {
        NameKind::Plain => add_plain(names, row, wishes),
        NameKind::Bridge { .. } | NameKind::Vlan { .. } => Ok(()),
    }
}

/// What a row can want.
fn add_row(
    alloc: Global,
    names: &Names,
    row: &NameRow,
    vlans: &[VlanRow],
    radio: &[RadioPort],
    wishes: &mut Vec<Wish>,
) -> Result<(), Memory>
    ensures { OnOk result (wishes.new.items ≡ wishes.old.items
        ++ spec.wishes_at (name_list names.now) (spec.row_mays vlans.now radio.now row.now)) }
{
    add_mtu(names, &row.name, row.mtu, wishes)?;
    add_standing(alloc, names, row, vlans, radio, wishes)
}

/// Whether a name is of the form X.N.
fn is_dotted(name: &DevName) -> bool
    ensures { result ≡ is_some (dotted.vlan_parts name.now) }
{
    vlan_parts(name).is_some()
}

/// What a name without a row can want.
fn add_rowless(names: &Names, name: &DevName, wishes: &mut Vec<Wish>) -> Result<(), Memory>
    ensures { OnOk result (wishes.new.items ≡ wishes.old.items
        ++ spec.wishes_at (name_list names.now) (spec.row_mays [] [] (rowless name.now))) }
{
    if is_dotted(name) {
        return Ok(());
    }
    add_up(names, name, wishes)
}

/// What the name of an id can want.
fn add_name(
    alloc: Global,
    names: &Names,
    id: usize,
    rows: &[NameRow],
    vlans: &[VlanRow],
    radio: &[RadioPort],
    wishes: &mut Vec<Wish>,
) -> Result<(), Memory>
    requires rows { BeginWithRows (name_list names.now) rows.now }
    requires within { id < length names.now }
    ensures { OnOk result (wishes.new.items ≡ wishes.old.items
        ++ spec.wishes_at (name_list names.now)
        (mays_of (spec.known rows.now vlans.now names.now radio.now)
        (slice_index_or (name_list names.now) id []))) }
{
    if id < rows.len() {
        add_row(alloc, names, &rows[id], vlans, radio, wishes)
    } else {
        add_rowless(names, &names.name(id), wishes)
    }
}

/// What all names can want, of which those of the rows come first.
pub(crate) fn wishes_of(
    alloc: Global,
    names: &Names,
    rows: &[NameRow],
    vlans: &[VlanRow],
    radio: &[RadioPort],
) -> Result<Vec<Wish>, Memory>
    requires { BeginWithRows (name_list names.now) rows.now }
    ensures { IfOk result (λ wishes. wishes.items ≡ spec.wishes_at (name_list names.now)
        (mays (spec.known rows.now vlans.now names.now radio.now))) }
{
    let mut wishes = Vec::new(alloc);
    for id in 0..names.len() {
        add_name(alloc, names, id, rows, vlans, radio, &mut wishes)?;
    }
    Ok(wishes)
}
