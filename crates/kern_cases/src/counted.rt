ghost use Rattle.std.specs.Prelude.{◌≡◌, ◌<◌, ◌≤◌, length};

use crate::graph::Event;
use crate::texts::put_line;
use std::alloc::Global;
use std::io::Write;
use std::marker::Brand;
use std::sync::ledger::{Blank, Ledger};
use use_counts::{Edge, Graph, MarkedIds, Row, Steps, can_load};

/// The most claims that a node can be told.
const MOST_CLAIMS: u32 = 1024;

/// What a graph answers of a node.
#[derive(Clone, Copy, PartialEq, Eq)]
struct Answer {
    available: bool,
    link: bool,
    used: bool,
    users: u32,
}

/// A graph, the marked nodes of its last event, and what it last answered of each node.
#[derive(Drop)]
pub(crate) struct Counted {
    graph: Graph,
    uses: MarkedIds,
    answers: Vec<Answer>,
}

impl Counted {
    /// The graph of these rows and edges, where there is one.
    pub(crate) fn load(
        alloc: Global,
        rows: &[Row],
        edges: &[Edge],
    ) -> anyhow::Result<Option<Counted>> {
        if !can_load(rows, edges, &[]) {
            return Ok(None);
        }
        let graph = Graph::load(alloc, rows, edges, &[])?;
        let uses = MarkedIds::with_room(alloc, graph.len())?;
        let answers = answers_of(alloc, &graph)?;
        Ok(Some(Counted {
            graph,
            uses,
            answers,
        }))
    }

    /// Puts these edges in place of earlier ones, and gives what changed.
    pub(crate) fn join(
        &mut self,
        alloc: Global,
        ports: &[Edge],
        out: &mut Vec<u8>,
    ) -> anyhow::Result<()> {
        if !self.graph.can_join(ports) {
            return put_line(b"cannot join", out);
        }
        self.graph.set_ports(alloc, ports)?;
        self.put_changes(alloc, out)
    }

    /// One node more, and its number.
    pub(crate) fn add(&mut self, alloc: Global, row: Row) -> anyhow::Result<usize> {
        if row.kind.is_made() || row.level < 1 || row.level > 8 {
            return Err(anyhow::anyhow!("no row of a lone node"));
        }
        let id = self.graph.len();
        self.graph.add(alloc, row)?;
        self.uses.add_room()?;
        self.answers = answers_of(alloc, &self.graph)?;
        Ok(id)
    }

    /// Tells a node something, and gives what changed.
    pub(crate) fn tell(
        &mut self,
        alloc: Global,
        id: usize,
        event: Event,
        out: &mut Vec<u8>,
    ) -> anyhow::Result<()> {
        if !tell::<Brand>(&mut self.graph, id, event, &mut self.uses, Blank::new(1)) {
            return Err(anyhow::anyhow!("no such node, or too many claims"));
        }
        self.put_changes(alloc, out)?;
        put_marked(alloc, &self.uses, out)?;
        self.uses.clear();
        Ok(())
    }

    /// Gives each node of which the graph answers something else than before.
    fn put_changes(&mut self, alloc: Global, out: &mut Vec<u8>) -> anyhow::Result<()> {
        let answers = answers_of(alloc, &self.graph)?;
        let pairs = self.answers.iter().zip(&answers);
        for (id, (before, after)) in pairs.enumerate() {
            if before != after {
                put_answer(id, after, out)?;
            }
        }
        self.answers = answers;
        Ok(())
    }

    /// Gives all nodes.
    pub(crate) fn show(&self, out: &mut Vec<u8>) -> anyhow::Result<()> {
        for (id, answer) in self.answers.iter().enumerate() {
            put_answer(id, answer, out)?;
        }
        Ok(())
    }
}

/// Tells a node something. Gives whether it may be told.
fn tell<L: Ledger>(
    graph: &mut Graph,
    id: usize,
    event: Event,
    uses: &mut MarkedIds,
    blank: Blank,
) -> bool
    requires name { blank.name ≡ L.name }
    requires parts { blank.parts ≡ L.parts }
    requires some { 0 < L.parts }
{
    if id >= graph.len() || graph.len() > uses.room() {
        return false;
    }
    let mut steps = Steps::<L>::new(blank);
    match event {
        Event::Comes(carrier) => graph.set_present(id, carrier, uses, &mut steps),
        Event::Leaves => graph.set_absent(id, uses, &mut steps),
        Event::Carrier(on) => graph.set_carrier(id, on, uses, &mut steps),
        Event::Claims(count) => {
            if count > MOST_CLAIMS {
                return false;
            }
            graph.set_claim(id, count, uses, &mut steps);
        }
    }
    true
}

fn answers_of(alloc: Global, graph: &Graph) -> anyhow::Result<Vec<Answer>> {
    let mut answers = Vec::new(alloc);
    for id in 0..graph.len() {
        answers.push(Answer {
            available: graph.available(id),
            link: graph.link(id),
            used: graph.used(id),
            users: graph.users(id),
        })?;
    }
    Ok(answers)
}

fn put_answer(id: usize, answer: &Answer, out: &mut Vec<u8>) -> anyhow::Result<()> {
    write!(out, "{id}")?;
    for (holds, word) in [
        (answer.available, " available"),
        (answer.link, " linked"),
        (answer.used, " used"),
    ] {
        if holds {
            out.extend_from_slice(word.as_bytes())?;
        }
    }
    write!(out, " users {}\n", answer.users)?;
    Ok(())
}

fn put_marked(alloc: Global, uses: &MarkedIds, out: &mut Vec<u8>) -> anyhow::Result<()> {
    if uses.ids().is_empty() {
        return Ok(());
    }
    let mut ids = Vec::from_slice(alloc, uses.ids())?;
    ids.sort()?;
    out.extend_from_slice(b"marked")?;
    for id in &ids {
        write!(out, " {id}")?;
    }
    out.push(b'\n')?;
    Ok(())
}
