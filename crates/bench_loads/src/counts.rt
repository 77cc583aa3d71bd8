//! `counts port|name BRIDGES TURNS`: a graph of so many bridges, each over a port of its own, and a
//! name beside them. So many times the carrier of a device goes on or off, of the port of the last
//! bridge or of the name beside. Given is how many times that was.
ghost use Rattle.std.specs.Prelude.{◌≡◌, ◌<◌};

use plane_io::Memory;
use std::alloc::Global;
use std::marker::Brand;
use std::sync::ledger::{Blank, Ledger};
use use_counts::{Edge, Graph, Kind, MarkedIds, Row, Steps, can_load};

/// What the words of the command line ask for.
#[derive(Drop)]
struct Load {
    is_port: bool,
    bridges: u16,
    turns: u32,
}

/// The bridges, their ports, and a name.
fn rows_of(alloc: Global, bridges: u16) -> Result<Vec<Row>, Memory> {
    let mut rows = Vec::new(alloc);
    for _ in 0..bridges {
        rows.push(Row {
            kind: Kind::Bridge(false),
            level: 2,
        })?;
    }
    for _ in 0..bridges {
        rows.push(Row {
            kind: Kind::Plain(true),
            level: 1,
        })?;
    }
    rows.push(Row {
        kind: Kind::Plain(true),
        level: 1,
    })?;
    Ok(rows)
}

fn edges_of(alloc: Global, bridges: u16) -> Result<Vec<Edge>, Memory> {
    let mut edges = Vec::new(alloc);
    for upper in 0..bridges {
        edges.push(Edge {
            lower: usize::from(bridges) + usize::from(upper),
            upper: usize::from(upper),
        })?;
    }
    Ok(edges)
}

fn tell<L: Ledger>(
    graph: &mut Graph,
    id: usize,
    bridges: u16,
    turns: u32,
    uses: &mut MarkedIds,
    blank: Blank,
) -> u32
    requires name { blank.name ≡ L.name }
    requires parts { blank.parts ≡ L.parts }
    requires some { 0 < L.parts }
{
    let mut steps = Steps::<L>::new(blank);
    for port in 0..=usize::from(bridges) {
        let place = usize::from(bridges) + port;
        if place < graph.len() && graph.len() <= uses.room() {
            graph.set_present(place, true, uses, &mut steps);
        }
    }
    let mut told = 0;
    for turn in 0..turns {
        if id < graph.len() && graph.len() <= uses.room() {
            graph.set_carrier(id, turn % 2 == 1, uses, &mut steps);
            uses.clear();
            told = turn + 1;
        }
    }
    told
}

fn carry_out(alloc: Global, load: &Load) -> Result<u32, Memory> {
    let rows = rows_of(alloc, load.bridges)?;
    let edges = edges_of(alloc, load.bridges)?;
    if !can_load(rows.as_slice(), edges.as_slice(), &[]) {
        return Ok(0);
    }
    let mut graph = Graph::load(alloc, rows.as_slice(), edges.as_slice(), &[])?;
    let name = 2 * usize::from(load.bridges);
    let id = if load.is_port && name > 0 {
        name - 1
    } else {
        name
    };
    let mut uses = MarkedIds::with_room(alloc, graph.len())?;
    Ok(tell::<Brand>(
        &mut graph,
        id,
        load.bridges,
        load.turns,
        &mut uses,
        Blank::new(1),
    ))
}

/// Carries these words out.
pub(crate) fn run(alloc: Global, words: &[&str]) -> anyhow::Result<Option<String>> {
    let [node, bridges, turns] = words else {
        return Ok(None);
    };
    let load = Load {
        is_port: *node == "port",
        bridges: bridges.parse()?,
        turns: turns.parse()?,
    };
    let count = carry_out(alloc, &load)?;
    Ok(Some(format!(in alloc; "{count}")?))
}
