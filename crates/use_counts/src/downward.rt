ghost use Rattle.std.specs.Prelude.{◌≡◌, ◌≤◌, ◌<◌, ◌+◌, ◌^◌, ◌==◌, ℕ, length, All, nat_lt, vec_len};
ghost use Rattle.std.specs.Prelude.{true, false};
ghost use Rattle.use_counts.specs.NodeRule.{node_at, after_upper, occurs, times, rank_at, rank_of};
ghost use Rattle.use_counts.specs.Edges.{lower_end, upper_end, far_ends, edges_at};
ghost use Rattle.use_counts.specs.Held.{UseSettledAt, DownTo, HoldsCounts, differs, used_at};
ghost use Rattle.use_counts.specs.Uses.{AreMarked};

use crate::nodes::Nodes;
use crate::steps::Steps;
use crate::topology::Topology;
use crate::uses::MarkedIds;
use std::sync::ledger::Ledger;

/// Counts a change of use at each node right below, one step an edge.
fn tell_lowers<L: Ledger>(
    lowers: &[usize],
    was: bool,
    now: bool,
    ranks: &[usize],
    nodes: &mut Nodes,
    uses: &mut MarkedIds,
    steps: &mut Steps<L>,
)
    requires room { length nodes.old ≤ uses.old.room }
    requires inside { All (λ l. l < length nodes.old) lowers.now }
    requires ranked { length ranks.now ≡ length nodes.old }
    requires before { (k : ℕ) → times was (occurs k lowers.now) ≤ (node_at nodes.old k).demand }
    requires fits { (k : ℕ) → (node_at nodes.old k).demand + occurs k lowers.now < 2 ^ 32 }
    ensures size { length nodes.new ≡ length nodes.old }
    ensures after_upper { (k : ℕ) → node_at nodes.new k
        ≡ after_upper was now (nat_lt 0 (rank_of ranks.now k)) (node_at nodes.old k)
        (occurs k lowers.now) }
    ensures cost { steps.new ≡ steps.old + length lowers.now }
    ensures uses { AreMarked nodes.old nodes.new uses.old uses.new }
{
    for lower in lowers {
        steps.tick();
        let old = nodes.node(*lower);
        let node = old.after_upper(was, now, ranks[*lower] > 0);
        nodes.put(*lower, node);
        uses.note(*lower, old.used != node.used);
    }
}

/// Computes the use of one node anew. Where it changed, those right below count that.
fn settle_use<L: Ledger>(
    topology: &Topology,
    place: usize,
    nodes: &mut Nodes,
    uses: &mut MarkedIds,
    steps: &mut Steps<L>,
)
    requires within { place < length nodes.old }
    requires room { length nodes.old ≤ uses.old.room }
    requires size { length nodes.old ≡ vec_len topology.now.uppers }
    requires kept { HoldsCounts topology.now.edges.items nodes.old }
    requires claims { (k : ℕ) → (node_at nodes.old k).claims ≤ 1024 }
    ensures size { length nodes.new ≡ length nodes.old }
    ensures use_marks { UseSettledAt (rank_of topology.now.ranks.items)
        (far_ends lower_end upper_end topology.now.edges.items place) place nodes.old nodes.new }
    ensures cost { steps.new ≡ steps.old + times
        (differs (used_at nodes.old place) (used_at nodes.new place))
        (edges_at upper_end (λ k. k == place) topology.now.edges.items) }
    ensures uses { AreMarked nodes.old nodes.new uses.old uses.new }
{
    let was = nodes.node(place);
    let now = was.use_settled();
    nodes.put(place, now);
    uses.note(place, was.used != now.used);
    if was.used != now.used {
        tell_lowers(
            topology.lowers(place),
            was.used,
            now.used,
            &topology.ranks,
            nodes,
            uses,
            steps,
        );
    }
}

/// Computes each use that is stale, from the highest rank down.
pub fn pass_down<L: Ledger>(
    topology: &Topology,
    nodes: &mut Nodes,
    uses: &mut MarkedIds,
    steps: &mut Steps<L>,
)
    requires room { length nodes.old ≤ uses.old.room }
    requires size { length nodes.old ≡ vec_len topology.now.uppers }
    requires ranks { (k : ℕ) → rank_at nodes.old k ≡ rank_of topology.now.ranks.items k }
    requires kept { HoldsCounts topology.now.edges.items nodes.old }
    requires claims { (k : ℕ) → (node_at nodes.old k).claims ≤ 1024 }
    requires ups { (k : ℕ) → (node_at nodes.old k).stale ≡ false }
    requires use_marks { (k : ℕ) → (node_at nodes.old k).use_stale ≡ true
        → 0 < rank_of topology.now.ranks.items k }
    ensures down { DownTo topology.now.edges.items
        (rank_of topology.now.ranks.items) 0 nodes.old nodes.new steps.old steps.new }
    ensures uses { AreMarked nodes.old nodes.new uses.old uses.new }
{
    let mut turn = topology.made_count();
    while turn > 0 {
        let Some(next) = nodes.last_use_stale() else {
            return;
        };
        settle_use(topology, topology.made_at(next), nodes, uses, steps);
        turn = next;
    }
}
