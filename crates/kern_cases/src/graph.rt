use crate::counted::Counted;
use crate::objects::is_on;
use crate::texts::put_line;
use std::alloc::Global;
use std::io::Write;
use use_counts::{Edge, Kind, Row};

/// What a node is told.
#[derive(Clone, Copy)]
pub(crate) enum Event {
    Comes(bool),
    Leaves,
    Carrier(bool),
    Claims(u32),
}

/// A counted graph, once one was loaded.
#[derive(Drop)]
pub(crate) struct GraphBench {
    alloc: Global,
    graph: Option<Counted>,
}

impl GraphBench {
    pub(crate) fn new(alloc: Global) -> GraphBench {
        GraphBench { alloc, graph: None }
    }

    /// Carries a step of the graph out. Gives whether it is one.
    pub(crate) fn step(
        &mut self,
        words: &[&str],
        input: &[u8],
        out: &mut Vec<u8>,
    ) -> anyhow::Result<bool> {
        if let ["graph"] = words {
            self.load(input, out)?;
            return Ok(true);
        }
        let Some(graph) = &mut self.graph else {
            return Ok(false);
        };
        match words {
            ["ports"] => {
                let ports = edges_of(self.alloc, input)?;
                graph.join(self.alloc, &ports, out)?;
            }
            ["node", kind, level] => {
                let id = graph.add(self.alloc, row_of(kind, level)?)?;
                write!(out, "{id}\n")?;
            }
            ["nodes"] => graph.show(out)?,
            [kind, id, words @ ..] => {
                let Some(event) = event_of(kind, words)? else {
                    return Ok(false);
                };
                graph.tell(self.alloc, id.parse()?, event, out)?;
            }
            _ => return Ok(false),
        }
        Ok(true)
    }

    fn load(&mut self, input: &[u8], out: &mut Vec<u8>) -> anyhow::Result<()> {
        let mut rows = Vec::new(self.alloc);
        let mut edges = Vec::new(self.alloc);
        for line in str::from_utf8(input)?.lines() {
            let words = case_files::words(self.alloc, line)?;
            match words.as_slice() {
                ["edge", lower, upper] => edges.push(edge_of(lower, upper)?)?,
                [kind, level] => rows.push(row_of(kind, level)?)?,
                _ => return Err(anyhow::anyhow!("neither a row nor an edge")),
            }
        }
        self.graph = Counted::load(self.alloc, &rows, &edges)?;
        match self.graph {
            Some(_) => Ok(()),
            None => put_line(b"cannot load", out),
        }
    }
}

fn edges_of(alloc: Global, input: &[u8]) -> anyhow::Result<Vec<Edge>> {
    let mut edges = Vec::new(alloc);
    for line in str::from_utf8(input)?.lines() {
        let words = case_files::words(alloc, line)?;
        match words.as_slice() {
            ["edge", lower, upper] => edges.push(edge_of(lower, upper)?)?,
            _ => return Err(anyhow::anyhow!("no edge")),
        }
    }
    Ok(edges)
}

fn edge_of(lower: &str, upper: &str) -> anyhow::Result<Edge> {
    Ok(Edge {
        lower: lower.parse()?,
        upper: upper.parse()?,
    })
}

fn row_of(kind: &str, level: &str) -> anyhow::Result<Row> {
    let kind = match kind {
        "broken" => Kind::Broken,
        "plain" => Kind::Plain(true),
        "unsound" => Kind::Plain(false),
        "vlan" => Kind::Vlan,
        "bridge" => Kind::Bridge(false),
        "empty-bridge" => Kind::Bridge(true),
        _ => return Err(anyhow::anyhow!("no such kind of a node")),
    };
    Ok(Row {
        kind,
        level: level.parse()?,
    })
}

fn event_of(kind: &str, words: &[&str]) -> anyhow::Result<Option<Event>> {
    Ok(match (kind, words) {
        ("comes", [carrier]) => Some(Event::Comes(is_on(carrier)?)),
        ("leaves", []) => Some(Event::Leaves),
        ("carrier", [on]) => Some(Event::Carrier(is_on(on)?)),
        ("claims", [count]) => Some(Event::Claims(count.parse()?)),
        _ => None,
    })
}
