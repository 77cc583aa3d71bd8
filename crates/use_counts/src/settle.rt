ghost use Rattle.std.specs.Prelude.{◌≡◌, ◌≢◌, ◌≤◌, ◌<◌, ◌+◌, ℕ, length, map, slice_set, vec_len};
ghost use Rattle.std.specs.Prelude.{false, true};
ghost use Rattle.use_counts.specs.Held.{IsCalm, HoldsCounts, Settles, visits_due, member_of};
ghost use Rattle.use_counts.specs.NodeRule.{node_at, rank_at, rank_of};
ghost use Rattle.use_counts.specs.Uses.{AreMarked};

use crate::downward::pass_down;
use crate::node::Node;
use crate::nodes::Nodes;
use crate::steps::Steps;
use crate::topology::Topology;
use crate::upward::pass_up;
use crate::uses::MarkedIds;
use std::sync::ledger::Ledger;

/// Computes a node and all that follows from it: availability and link upward, then use downward.
pub fn settle<L: Ledger>(
    topology: &Topology,
    start: usize,
    nodes: &mut Nodes,
    uses: &mut MarkedIds,
    steps: &mut Steps<L>,
)
    requires within { start < length nodes.old }
    requires size { length nodes.old ≡ vec_len topology.now.uppers }
    requires room { length nodes.old ≤ uses.old.room }
    requires ranks { (k : ℕ) → rank_at nodes.old k ≡ rank_of topology.now.ranks.items k }
    requires kept { HoldsCounts topology.now.edges.items nodes.old }
    requires claims { (k : ℕ) → (node_at nodes.old k).claims ≤ 1024 }
    requires marks { (k : ℕ) → k ≢ start → (node_at nodes.old k).stale ≡ true
        → rank_of topology.now.ranks.items start < rank_of topology.now.ranks.items k }
    requires use_marks { (k : ℕ) → (node_at nodes.old k).use_stale ≡ true
        → 0 < rank_of topology.now.ranks.items k }
    ensures settles { Settles topology.now.edges.items nodes.old nodes.new steps.old steps.new }
    ensures uses { AreMarked nodes.old nodes.new uses.old uses.new }
{
    pass_up(topology, start, nodes, uses, steps);
    pass_down(topology, nodes, uses, steps);
}

/// Writes whether a device is there and has a carrier, and computes what follows.
pub fn put_device<L: Ledger>(
    topology: &Topology,
    place: usize,
    present: bool,
    carrier: bool,
    nodes: &mut Nodes,
    uses: &mut MarkedIds,
    steps: &mut Steps<L>,
)
    requires within { place < length nodes.old }
    requires size { length nodes.old ≡ vec_len topology.now.uppers }
    requires room { length nodes.old ≤ uses.old.room }
    requires ranks { (k : ℕ) → rank_at nodes.old k ≡ rank_of topology.now.ranks.items k }
    requires rest { IsCalm topology.now.edges.items nodes.old }
    requires claims { (k : ℕ) → (node_at nodes.old k).claims ≤ 1024 }
    ensures size { length nodes.new ≡ length nodes.old }
    ensures ranks { (k : ℕ) → rank_at nodes.new k ≡ rank_at nodes.old k }
    ensures rest { IsCalm topology.now.edges.items nodes.new }
    ensures members { map member_of nodes.new ≡ slice_set (map member_of nodes.old) place
        (record (member_of (node_at nodes.old place)) { present = present; carrier = carrier }) }
    ensures cost { steps.new ≤ steps.old + visits_due topology.now.edges.items nodes.old nodes.new }
    ensures uses { AreMarked nodes.old nodes.new uses.old uses.new }
{
    let node = Node {
        present,
        carrier,
        stale: true,
        ..nodes.node(place)
    };
    nodes.put(place, node);
    settle(topology, place, nodes, uses, steps);
}

/// Writes the claims of a node, and computes what follows.
pub fn put_claims<L: Ledger>(
    topology: &Topology,
    place: usize,
    claims: u32,
    nodes: &mut Nodes,
    uses: &mut MarkedIds,
    steps: &mut Steps<L>,
)
    requires within { place < length nodes.old }
    requires size { length nodes.old ≡ vec_len topology.now.uppers }
    requires room { length nodes.old ≤ uses.old.room }
    requires ranks { (k : ℕ) → rank_at nodes.old k ≡ rank_of topology.now.ranks.items k }
    requires rest { IsCalm topology.now.edges.items nodes.old }
    requires claims { (k : ℕ) → (node_at nodes.old k).claims ≤ 1024 }
    requires few { claims ≤ 1024 }
    ensures size { length nodes.new ≡ length nodes.old }
    ensures ranks { (k : ℕ) → rank_at nodes.new k ≡ rank_at nodes.old k }
    ensures rest { IsCalm topology.now.edges.items nodes.new }
    ensures members { map member_of nodes.new ≡ slice_set (map member_of nodes.old) place
        (record (member_of (node_at nodes.old place)) { claims = claims }) }
    ensures cost { steps.new ≤ steps.old + visits_due topology.now.edges.items nodes.old nodes.new }
    ensures uses { AreMarked nodes.old nodes.new uses.old uses.new }
{
    let was = nodes.node(place);
    let node = was.with_claims(claims, topology.rank(place) > 0);
    nodes.put(place, node);
    uses.note(place, was.used != node.used);
    pass_down(topology, nodes, uses, steps);
}
