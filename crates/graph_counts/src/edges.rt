ghost use Rattle.std.specs.Prelude.{◌≡◌, ◌<◌, ◌++◌, map, length, slice_index_or, true, IfOk, OnOk};
ghost use Rattle.net_rows.specs.declared.rows.NameRow.{NameRow};
ghost use Rattle.net_rules.specs.Rows.{row_at, is_bridge_kind};
ghost use Rattle.use_counts.specs.Rows as counts;
ghost use Rattle.graph_rules.specs.State.{name_list};
ghost use Rattle.graph_rules.specs.Conditions.{ArePorts};
ghost use Rattle.graph_counts.specs.Counted as spec;
ghost use Rattle.graph_counts.specs.Sound.{BeginWithRows};

use graph_names::Names;
use graph_rules::RadioPort;
use kern_model::DevName;
use net_rows::{NameKind, NameRow};
use plane_io::Memory;
use std::alloc::Global;
use use_counts::Edge;

fn id_of(names: &Names, name: &DevName) -> usize
    ensures { result ≡ spec.id_of (name_list names.now) name.now }
{
    match names.find(name) {
        Some(id) => id,
        None => names.len(),
    }
}

fn add_ports(
    names: &Names,
    upper: usize,
    ports: &[DevName],
    edges: &mut Vec<Edge>,
) -> Result<(), Memory>
    ensures { OnOk result (edges.new.items ≡ edges.old.items
        ++ map (counts.edge upper) (map (spec.id_of (name_list names.now)) ports.now)) }
{
    for port in ports {
        edges.push(Edge {
            lower: id_of(names, port),
            upper,
        })?;
    }
    Ok(())
}

fn add_lowers(
    names: &Names,
    upper: usize,
    row: &NameRow,
    edges: &mut Vec<Edge>,
) -> Result<(), Memory>
    ensures { OnOk result (edges.new.items ≡ edges.old.items ++ map (counts.edge upper)
        (counts.lowers_of (spec.own_standing (name_list names.now) row.now))) }
{
    if row.broken {
        return Ok(());
    }
    match &row.kind {
        NameKind::Plain | NameKind::Vlan { lower: None, .. } => Ok(()),
        NameKind::Bridge { ports, .. } => add_ports(names, upper, ports.as_slice(), edges),
        NameKind::Vlan {
            lower: Some(lower),
            ..
        } => {
            edges.push(Edge {
                lower: id_of(names, lower),
                upper,
            })?;
            Ok(())
        }
    }
}

/// The edges of rows, whose names come first among the names.
pub fn row_edges(alloc: Global, names: &Names, rows: &[NameRow]) -> Result<Vec<Edge>, Memory>
    ensures { IfOk result (λ edges. edges.items
        ≡ spec.row_edges (name_list names.now) rows.now) }
{
    let mut edges = Vec::new(alloc);
    for (upper, row) in rows.iter().enumerate() {
        add_lowers(names, upper, row, &mut edges)?;
    }
    Ok(edges)
}

/// The place of a bridge's row, which is its id.
fn bridge_of(names: &Names, rows: &[NameRow], bridge: &DevName) -> usize
    requires rows { BeginWithRows (name_list names.now) rows.now }
    requires bridge { is_bridge_kind (row_at rows.now bridge.now).kind ≡ true }
    ensures id { result ≡ spec.id_of (name_list names.now) bridge.now }
    ensures inside { result < length rows.now }
    ensures row { (d : NameRow) → slice_index_or rows.now result d ≡ row_at rows.now bridge.now }
{
    id_of(names, bridge)
}

/// The edges to the ports of radios. A bridge that a fault makes unavailable gets none.
pub fn port_edges(
    alloc: Global,
    names: &Names,
    rows: &[NameRow],
    radio: &[RadioPort],
) -> Result<Vec<Edge>, Memory>
    requires rows { BeginWithRows (name_list names.now) rows.now }
    requires ports { ArePorts rows.now (name_list names.now) radio.now }
    ensures { IfOk result (λ edges. edges.items
        ≡ spec.port_edges (name_list names.now) rows.now radio.now) }
{
    let mut edges = Vec::new(alloc);
    for port in radio {
        let upper = bridge_of(names, rows, &port.bridge);
        if !rows[upper].broken {
            edges.push(Edge {
                lower: id_of(names, &port.port),
                upper,
            })?;
        }
    }
    Ok(edges)
}
