ghost use Rattle.std.specs.Prelude.{◌≡◌, ◌++◌, map, IfOk, true, false};
ghost use Rattle.net_rules.specs.Rows.{rowless};
ghost use Rattle.graph_counts.specs.Counted as spec;

use kern_model::DevName;
use net_rows::{NameKind, NameRow, vlan_parts};
use plane_io::Memory;
use std::alloc::Global;
use use_counts::{Kind, Row};

fn sound_kind(kind: &NameKind) -> Kind
    ensures { result ≡ spec.node_kind kind.now false }
{
    match kind {
        NameKind::Plain => Kind::Plain(true),
        NameKind::Bridge { empty, .. } => Kind::Bridge(*empty),
        NameKind::Vlan { lower: Some(_), .. } => Kind::Vlan,
        NameKind::Vlan { lower: None, .. } => Kind::Broken,
    }
}

fn broken_kind(kind: &NameKind) -> Kind
    ensures { result ≡ spec.node_kind kind.now true }
{
    match kind {
        NameKind::Plain => Kind::Plain(false),
        NameKind::Bridge { .. } | NameKind::Vlan { .. } => Kind::Broken,
    }
}

fn capped(level: u8) -> u8
    ensures { result ≡ spec.capped level }
{
    if level > 8 { 8 } else { level }
}

/// The node of a row.
fn node_row(row: &NameRow) -> Row
    ensures { result ≡ spec.node_row row.now }
{
    let kind = if row.broken {
        broken_kind(&row.kind)
    } else {
        sound_kind(&row.kind)
    };
    Row {
        kind,
        level: capped(row.level),
    }
}

/// The node of a name without a row.
pub(crate) fn rowless_row(name: &DevName) -> Row
    ensures { result ≡ spec.node_row (rowless name.now) }
{
    let kind = if vlan_parts(name).is_some() {
        Kind::Broken
    } else {
        Kind::Plain(true)
    };
    Row { kind, level: 1 }
}

/// The nodes of rows and of further names.
pub fn node_rows(alloc: Global, rows: &[NameRow], plain: &[DevName]) -> Result<Vec<Row>, Memory>
    ensures { IfOk result (λ nodes. nodes.items ≡ map spec.node_row rows.now
        ++ map (λ name. spec.node_row (rowless name)) plain.now) }
{
    let mut nodes = Vec::new(alloc);
    for row in rows {
        nodes.push(node_row(row))?;
    }
    for name in plain {
        nodes.push(rowless_row(name))?;
    }
    Ok(nodes)
}
