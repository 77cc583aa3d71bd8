ghost use Rattle.std.specs.Prelude.{◌≡◌, ◌↔◌, ◌≤◌, ◌<◌, ◌+◌, ◌*◌, ◌++◌, ◌∷◌, [], ℕ, IfOk, IsTrue};
ghost use Rattle.std.specs.Prelude.{OnErr, OnOk, length, map, true, false, vec_len};
ghost use Rattle.use_counts.specs.Held.{IsCalm, HoldsCounts, member_of};
ghost use Rattle.use_counts.specs.NodeRule.{is_made, node_at, rank_at, rank_of};
ghost use Rattle.use_counts.specs.Order.{CanLoad, HasLevel};
ghost use Rattle.use_counts.specs.Network.{CanJoin, IsLoadable, available, changed_edges, link};
ghost use Rattle.use_counts.specs.Network.{loaded, member_at, network_from, row_of, used, users};
ghost use Rattle.use_counts.specs.Network.{with_carrier, with_claim, with_device, with_ports};
ghost use Rattle.use_counts.specs.Uses.{TellsUses};

use crate::node::{Edge, Row};
use crate::nodes::Nodes;
use crate::order::Order;
use crate::settle::{put_claims, put_device, settle};
use crate::steps::Steps;
use crate::topology::Topology;
use crate::uses::MarkedIds;
use plane_io::Memory;
use std::alloc::{AllocError, Global};
use std::marker::{Brand, Model};
use std::sync::ledger::{Blank, Ledger};

/// Devices over devices: which are available, have link and are used, kept under events.
#[derive(Drop)]
pub struct Graph {
    topology: Topology,
    /// The first edges are those of the rows, this many.
    fixed: usize,
    nodes: Nodes,
}

impl Model for Graph {
    ghost use Rattle.use_counts.specs.Network.{Network};

    ghost Value = { Network };

    ghost use Rattle.use_counts.specs.Inside.{network_of, IsSound};

    ghost view = { network_of };

    ghost invariant = { IsSound };
}

/// The edges of both lists.
fn chained(alloc: Global, fixed: &[Edge], ports: &[Edge]) -> Result<Vec<Edge>, AllocError>
    ensures { IfOk result (λ edges. edges.items ≡ fixed.now ++ ports.now) }
{
    let mut edges = Vec::from_slice(alloc, fixed)?;
    edges.extend_from_slice(ports)?;
    Ok(edges)
}

/// Computes all nodes, with a counter of its own.
fn settle_all<L: Ledger>(topology: &Topology, nodes: &mut Nodes, uses: &mut MarkedIds, blank: Blank)
    requires name { blank.name ≡ L.name }
    requires parts { blank.parts ≡ L.parts }
    requires some { 0 < L.parts }
    requires size { length nodes.old ≡ vec_len topology.now.uppers }
    requires room { length nodes.old ≤ uses.old.room }
    requires ranks { (k : ℕ) → rank_at nodes.old k ≡ rank_of topology.now.ranks.items k }
    requires kept { HoldsCounts topology.now.edges.items nodes.old }
    requires claims { (k : ℕ) → (node_at nodes.old k).claims ≤ 1024 }
    requires marks { (k : ℕ) → (node_at nodes.old k).stale ≡ true
        → 0 < rank_of topology.now.ranks.items k }
    requires use_marks { (k : ℕ) → (node_at nodes.old k).use_stale ≡ true
        → 0 < rank_of topology.now.ranks.items k }
    ensures size { length nodes.new ≡ length nodes.old }
    ensures ranks { (k : ℕ) → rank_at nodes.new k ≡ rank_at nodes.old k }
    ensures rest { IsCalm topology.now.edges.items nodes.new }
    ensures members { map member_of nodes.new ≡ map member_of nodes.old }
{
    let mut steps = Steps::<L>::new(blank);
    if topology.made_count() > 0 {
        settle(topology, topology.made_at(0), nodes, uses, &mut steps);
    }
}

impl Graph {
    /// The graph of some rows, of their edges, and of the edges to the ports of radios. No device
    /// is there, and nothing is claimed.
    pub fn load(
        alloc: Global,
        rows: &[Row],
        fixed: &[Edge],
        ports: &[Edge],
    ) -> Result<Graph, Memory>
        requires { CanLoad rows.now fixed.now ports.now }
        ensures { IfOk result (λ g. g ≡ network_from rows.now fixed.now ports.now) }
    {
        let order = Order::of(alloc, rows)?;
        Graph::with_order(alloc, order, rows, fixed, ports)
    }

    fn with_order(
        alloc: Global,
        order: Order,
        rows: &[Row],
        fixed: &[Edge],
        ports: &[Edge],
    ) -> Result<Graph, Memory>
        requires { IsLoadable order.places.items order.ranks.items rows.now fixed.now ports.now }
        ensures { IfOk result (λ g. g ≡ network_from rows.now fixed.now ports.now) }
    {
        let Order { places, ranks } = order;
        let mut nodes = Nodes::new(alloc, rows, &ranks, places.len())?;
        let edges = chained(alloc, fixed, ports)?;
        let topology = Topology::new(alloc, places, ranks, edges)?;
        let mut uses = MarkedIds::with_room(alloc, rows.len())?;
        settle_all::<Brand>(&topology, &mut nodes, &mut uses, Blank::new(1));
        Ok(Graph {
            topology,
            fixed: fixed.len(),
            nodes,
        })
    }

    /// Whether radios can have these ports.
    pub fn can_join(&self, ports: &[Edge]) -> bool
        ensures { IsTrue result ↔ CanJoin self.now ports.now }
    {
        ports.len() < (1 << 20) - self.fixed && self.nodes.all_rise(ports)
    }

    /// Writes for each node the device and the claims that it has in another graph of the same
    /// rows.
    fn repeat<L: Ledger>(&mut self, told: &Graph, uses: &mut MarkedIds, blank: Blank)
        requires name { blank.name ≡ L.name }
        requires parts { blank.parts ≡ L.parts }
        requires some { 0 < L.parts }
        requires rows { map row_of self.old.members ≡ map row_of told.now.members }
        requires room { length self.old.members ≤ uses.old.room }
        ensures { self.new ≡ record self.old { members = told.now.members } }
    {
        let mut steps = Steps::<L>::new(blank);
        for id in 0..told.len() {
            let node = told.nodes.node(id);
            self.set_device(id, node.present, node.carrier, uses, &mut steps);
            self.set_claim(id, node.claims, uses, &mut steps);
        }
    }

    /// Radios have these ports in place of their old ones. Where memory lacks all stays as it was.
    pub fn set_ports(&mut self, alloc: Global, ports: &[Edge]) -> Result<(), Memory>
        requires { CanJoin self.old ports.now }
        ensures ok { OnOk result (self.new ≡ with_ports self.old ports.now) }
        ensures err { OnErr result (self.new ≡ self.old) }
    {
        let rows = self.nodes.rows(alloc)?;
        let (fixed, _) = self.topology.edges.split_at(self.fixed);
        let mut graph = Graph::load(alloc, &rows, fixed, ports)?;
        let mut uses = MarkedIds::with_room(alloc, rows.len())?;
        graph.repeat::<Brand>(self, &mut uses, Blank::new(1));
        *self = graph;
        Ok(())
    }

    /// One more node at no edge, without a device and without claims. Its number is the next one.
    /// Where memory lacks, all stays.
    pub fn add(&mut self, alloc: Global, row: Row) -> Result<(), Memory>
        requires plain { is_made row.kind ≡ false }
        requires level { HasLevel row }
        ensures ok { OnOk result (self.new ≡ record self.old {
          members = self.old.members ++ loaded row ∷ [];
        }) }
        ensures err { OnErr result (self.new ≡ self.old) }
    {
        self.topology.make_room()?;
        self.nodes.add(row)?;
        self.topology.add(alloc);
        Ok(())
    }

    /// How many nodes there are. Their numbers are those of their rows.
    pub fn len(&self) -> usize
        ensures { result ≡ length self.now.members }
    {
        self.nodes.len()
    }

    /// Whether a node is available.
    pub fn available(&self, id: usize) -> bool
        requires { id < length self.now.members }
        ensures { result ≡ available self.now id }
    {
        self.nodes.node(id).available
    }

    /// Whether a node has link.
    pub fn link(&self, id: usize) -> bool
        requires { id < length self.now.members }
        ensures { result ≡ link self.now id }
    {
        self.nodes.node(id).link
    }

    /// Whether a node is used.
    pub fn used(&self, id: usize) -> bool
        requires { id < length self.now.members }
        ensures { result ≡ used self.now id }
    {
        self.nodes.node(id).used
    }

    /// The claims of an available node and the used nodes right above it, else 0.
    pub fn users(&self, id: usize) -> u32
        requires { id < length self.now.members }
        ensures { result ≡ users self.now id }
    {
        self.nodes.node(id).users()
    }

    /// Whether the device of a node is there.
    pub fn present(&self, id: usize) -> bool
        requires { id < length self.now.members }
        ensures { result ≡ (member_at self.now.members id).present }
    {
        self.nodes.node(id).present
    }

    fn set_device<L: Ledger>(
        &mut self,
        id: usize,
        present: bool,
        carrier: bool,
        uses: &mut MarkedIds,
        steps: &mut Steps<L>,
    )
        requires within { id < length self.old.members }
        requires room { length self.old.members ≤ uses.old.room }
        ensures net { self.new ≡ with_device self.old id present carrier }
        ensures cost { steps.new ≤ steps.old + (1 + 2 * changed_edges self.old self.new) }
        ensures uses { TellsUses self.old self.new uses.old uses.new }
    {
        put_device(
            &self.topology,
            id,
            present,
            carrier,
            &mut self.nodes,
            uses,
            steps,
        );
    }

    /// A device is there, with or without a carrier.
    pub fn set_present<L: Ledger>(
        &mut self,
        id: usize,
        carrier: bool,
        uses: &mut MarkedIds,
        steps: &mut Steps<L>,
    )
        requires within { id < length self.old.members }
        requires room { length self.old.members ≤ uses.old.room }
        ensures net { self.new ≡ with_device self.old id true carrier }
        ensures cost { steps.new ≤ steps.old + (1 + 2 * changed_edges self.old self.new) }
        ensures uses { TellsUses self.old self.new uses.old uses.new }
    {
        self.set_device(id, true, carrier, uses, steps);
    }

    /// A device is gone.
    pub fn set_absent<L: Ledger>(&mut self, id: usize, uses: &mut MarkedIds, steps: &mut Steps<L>)
        requires within { id < length self.old.members }
        requires room { length self.old.members ≤ uses.old.room }
        ensures net { self.new ≡ with_device self.old id false false }
        ensures cost { steps.new ≤ steps.old + (1 + 2 * changed_edges self.old self.new) }
        ensures uses { TellsUses self.old self.new uses.old uses.new }
    {
        self.set_device(id, false, false, uses, steps);
    }

    /// The carrier of a device is on or off.
    pub fn set_carrier<L: Ledger>(
        &mut self,
        id: usize,
        on: bool,
        uses: &mut MarkedIds,
        steps: &mut Steps<L>,
    )
        requires within { id < length self.old.members }
        requires room { length self.old.members ≤ uses.old.room }
        ensures net { self.new ≡ with_carrier self.old id on }
        ensures cost { steps.new ≤ steps.old + (1 + 2 * changed_edges self.old self.new) }
        ensures uses { TellsUses self.old self.new uses.old uses.new }
    {
        let present = self.present(id);
        self.set_device(id, present, on, uses, steps);
    }

    /// A node has this many claims.
    pub fn set_claim<L: Ledger>(
        &mut self,
        id: usize,
        claims: u32,
        uses: &mut MarkedIds,
        steps: &mut Steps<L>,
    )
        requires within { id < length self.old.members }
        requires room { length self.old.members ≤ uses.old.room }
        requires few { claims ≤ 1024 }
        ensures net { self.new ≡ with_claim self.old id claims }
        ensures cost { steps.new ≤ steps.old + (1 + 2 * changed_edges self.old self.new) }
        ensures uses { TellsUses self.old self.new uses.old uses.new }
    {
        put_claims(&self.topology, id, claims, &mut self.nodes, uses, steps);
    }
}
