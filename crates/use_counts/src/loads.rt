ghost use Rattle.std.specs.Prelude.{◌↔◌, All, IsTrue, map};
ghost use Rattle.use_counts.specs.Network.{Rises, loaded};
ghost use Rattle.use_counts.specs.Order.{CanLoad, HasLevel};

use crate::node::{Edge, Row};

fn levels_fit(rows: &[Row]) -> bool
    ensures { IsTrue result ↔ All HasLevel rows.now }
{
    for row in rows {
        if row.level == 0 || row.level > 8 {
            return false;
        }
    }
    true
}

fn edge_fits(rows: &[Row], edge: Edge) -> bool
    ensures { IsTrue result ↔ Rises (map loaded rows.now) edge }
{
    if edge.lower >= rows.len() || edge.upper >= rows.len() {
        return false;
    }
    rows[edge.upper].kind.is_made() && rows[edge.lower].level < rows[edge.upper].level
}

fn edges_fit(rows: &[Row], edges: &[Edge]) -> bool
    ensures { IsTrue result ↔ All (Rises (map loaded rows.now)) edges.now }
{
    for edge in edges {
        if !edge_fits(rows, *edge) {
            return false;
        }
    }
    true
}

/// Whether a graph of these rows, their edges and the edges to ports of radios can be loaded.
pub fn can_load(rows: &[Row], fixed: &[Edge], ports: &[Edge]) -> bool
    ensures { IsTrue result ↔ CanLoad rows.now fixed.now ports.now }
{
    if fixed.len() + ports.len() >= 1 << 20 {
        return false;
    }
    levels_fit(rows) && edges_fit(rows, fixed) && edges_fit(rows, ports)
}
