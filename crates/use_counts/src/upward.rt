ghost use Rattle.std.specs.Prelude.{◌≡◌, ◌≢◌, ◌≤◌, ◌<◌, ◌+◌, ◌^◌, ℕ, length, All};
ghost use Rattle.std.specs.Prelude.{vec_len, ◌==◌, true};
ghost use Rattle.use_counts.specs.NodeRule.{node_at, occurs, times, after_lower, rank_at, rank_of};
ghost use Rattle.use_counts.specs.Edges.{lower_end, upper_end, far_ends, edges_at};
ghost use Rattle.use_counts.specs.Held.{HoldsCounts, UpTo, SettledAt, moved};
ghost use Rattle.use_counts.specs.Uses.{AreMarked};

use crate::node::Change;
use crate::nodes::Nodes;
use crate::steps::Steps;
use crate::topology::Topology;
use crate::uses::MarkedIds;
use std::sync::ledger::Ledger;

/// Counts a move at each node right above, one step an edge.
fn tell_uppers<L: Ledger>(uppers: &[usize], change: Change, nodes: &mut Nodes, steps: &mut Steps<L>)
    requires inside { All (λ u. u < length nodes.old) uppers.now }
    requires ready_before { (k : ℕ) → times change.was_available (occurs k uppers.now)
        ≤ (node_at nodes.old k).open_lowers }
    requires linked_before { (k : ℕ) → times change.had_link (occurs k uppers.now)
        ≤ (node_at nodes.old k).linked_lowers }
    requires ready_fits { (k : ℕ) → (node_at nodes.old k).open_lowers + occurs k uppers.now
        < 2 ^ 32 }
    requires linked_fits { (k : ℕ) → (node_at nodes.old k).linked_lowers + occurs k uppers.now
        < 2 ^ 32 }
    ensures size { length nodes.new ≡ length nodes.old }
    ensures after_lower { (k : ℕ) → node_at nodes.new k
        ≡ after_lower change (node_at nodes.old k) (occurs k uppers.now) }
    ensures cost { steps.new ≡ steps.old + length uppers.now }
{
    for upper in uppers {
        steps.tick();
        let node = nodes.node(*upper).after_lower(change);
        nodes.put(*upper, node);
    }
}

/// Computes one node anew. Where it moved, those right above it count that.
pub fn settle_node<L: Ledger>(
    topology: &Topology,
    place: usize,
    nodes: &mut Nodes,
    uses: &mut MarkedIds,
    steps: &mut Steps<L>,
)
    requires within { place < length nodes.old }
    requires size { length nodes.old ≡ vec_len topology.now.uppers }
    requires room { length nodes.old ≤ uses.old.room }
    requires kept { HoldsCounts topology.now.edges.items nodes.old }
    ensures size { length nodes.new ≡ length nodes.old }
    ensures spreads { SettledAt (rank_of topology.now.ranks.items)
        (far_ends upper_end lower_end topology.now.edges.items place) place nodes.old nodes.new }
    ensures cost { steps.new ≡ steps.old + times
        (moved (node_at nodes.old place) (node_at nodes.new place))
        (edges_at lower_end (λ k. k == place) topology.now.edges.items) }
    ensures uses { AreMarked nodes.old nodes.new uses.old uses.new }
{
    let was = nodes.node(place);
    let now = was.settled(topology.rank(place) > 0);
    nodes.put(place, now);
    uses.note(place, was.used != now.used);
    if was.has_moved(&now) {
        let change = Change {
            was_available: was.available,
            now_available: now.available,
            had_link: was.link,
            has_link: now.link,
        };
        tell_uppers(topology.uppers(place), change, nodes, steps);
    }
}

/// Computes one node anew, and then each stale one in the order of ranks.
pub fn pass_up<L: Ledger>(
    topology: &Topology,
    start: usize,
    nodes: &mut Nodes,
    uses: &mut MarkedIds,
    steps: &mut Steps<L>,
)
    requires within { start < length nodes.old }
    requires size { length nodes.old ≡ vec_len topology.now.uppers }
    requires room { length nodes.old ≤ uses.old.room }
    requires ranks { (k : ℕ) → rank_at nodes.old k ≡ rank_of topology.now.ranks.items k }
    requires kept { HoldsCounts topology.now.edges.items nodes.old }
    requires marks { (k : ℕ) → k ≢ start → (node_at nodes.old k).stale ≡ true
        → rank_of topology.now.ranks.items start < rank_of topology.now.ranks.items k }
    requires use_marks { (k : ℕ) → (node_at nodes.old k).use_stale ≡ true
        → 0 < rank_of topology.now.ranks.items k }
    ensures up { UpTo topology.now.edges.items (rank_of topology.now.ranks.items)
        (length topology.now.order.items) nodes.old nodes.new steps.old steps.new }
    ensures uses { AreMarked nodes.old nodes.new uses.old uses.new }
{
    settle_node(topology, start, nodes, uses, steps);
    let mut turn = topology.rank(start);
    while turn < topology.made_count() {
        let Some(next) = nodes.first_stale() else {
            return;
        };
        settle_node(topology, topology.made_at(next), nodes, uses, steps);
        turn = next + 1;
    }
}
