//! Claims that are taken back at once.
ghost use Rattle.std.specs.Prelude.{◌≡◌, ◌<◌, ℕ, List, true, false, bytes_eq};
ghost use Rattle.net_rules.specs.Rows as rows;
ghost use Rattle.graph_rules.specs.State.{claims_in};
ghost use Rattle.net_rules.specs.Claims.{claims_of};
ghost use Rattle.claim_moves.specs.Claiming.{DiffersInClaims};

use dev_graph::Graph;
use kern_model::DevName;
use net_rules::InterfaceState;
use std::sync::ledger::Ledger;
use use_counts::Steps;

/// Nothing claims the names of a graph any more that were claimed by interfaces alone. It takes no
/// memory.
pub fn forget_claims<L: Ledger>(graph: &mut Graph, states: &[InterfaceState], steps: &mut Steps<L>)
    requires { (name : List ℕ) → 0 < claims_in graph.old.known name
        → 0 < claims_of states.now name }
    ensures none { (name : List ℕ) → claims_in graph.new.known name ≡ 0 }
    ensures stays { DiffersInClaims graph.old graph.new }
{
    for state in states {
        forget_claim(graph, &state.device, steps);
        forget_claim(graph, &state.l3_device, steps);
    }
}

// Nothing claims a name, if there is one.
fn forget_claim<L: Ledger>(graph: &mut Graph, name: &Option<DevName>, steps: &mut Steps<L>)
    ensures none { (q : List ℕ) → rows.is_name name.now q ≡ true → claims_in graph.new.known q ≡ 0 }
    ensures others { (q : List ℕ) → rows.is_name name.now q ≡ false
        → claims_in graph.new.known q ≡ claims_in graph.old.known q }
    ensures stays { DiffersInClaims graph.old graph.new }
{
    match name {
        Some(name) => forget_name(graph, name, steps),
        None => {}
    }
}

// Nothing claims a name.
fn forget_name<L: Ledger>(graph: &mut Graph, name: &DevName, steps: &mut Steps<L>)
    ensures none { (q : List ℕ) → bytes_eq name.now q ≡ true → claims_in graph.new.known q ≡ 0 }
    ensures others { (q : List ℕ) → bytes_eq name.now q ≡ false
        → claims_in graph.new.known q ≡ claims_in graph.old.known q }
    ensures stays { DiffersInClaims graph.old graph.new }
{
    match graph.find(name) {
        Some(id) => graph.set_claim(id, 0, steps),
        None => {}
    }
}
