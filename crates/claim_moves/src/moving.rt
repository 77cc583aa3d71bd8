//! The claims of names follow what interfaces become.
ghost use Rattle.std.specs.Prelude.{◌≡◌, ◌<◌, ◌≤◌, ◌+◌, ℕ, List, true, is_some};
ghost use Rattle.net_rules.specs.Rows as rows;
ghost use Rattle.graph_rules.specs.State.{claims_in, place_among};
ghost use Rattle.net_rules.specs.Claims.{uses_by, claim_of};
ghost use Rattle.claim_moves.specs.Claiming.{DiffersInClaims, CanMove, MovesNamed, Moves};
ghost use Rattle.claim_moves.specs.Claiming as spec;

use dev_graph::Graph;
use kern_model::DevName;
use net_rules::InterfaceState;
use net_view::is_name;
use std::sync::ledger::Ledger;
use use_counts::Steps;

/// The claims of all names follow where an interface becomes another. It takes no memory.
pub fn move_claims<L: Ledger>(
    graph: &mut Graph,
    old: &InterfaceState,
    new: &InterfaceState,
    steps: &mut Steps<L>,
)
    requires { CanMove graph.old.known old.now new.now }
    ensures moves { Moves old.now new.now graph.old.known graph.new.known }
    ensures stays { DiffersInClaims graph.old graph.new }
{
    move_named(graph, &old.device, old, new, steps);
    let before = apart_from(&old.device, &None, &old.l3_device);
    move_named(graph, &before, old, new, steps);
    let now = apart_from(&old.device, &old.l3_device, &new.l3_device);
    move_named(graph, &now, old, new, steps);
}

// A name, unless it is one of two others.
fn apart_from(
    first: &Option<DevName>,
    second: &Option<DevName>,
    name: &Option<DevName>,
) -> Option<DevName>
    ensures { result ≡ spec.apart_from first.now second.now name.now }
{
    let Some(name) = name else {
        return None;
    };
    if is_name(first, name) | is_name(second, name) {
        None
    } else {
        Some(*name)
    }
}

// The claims of one name, if there is one, follow.
fn move_named<L: Ledger>(
    graph: &mut Graph,
    name: &Option<DevName>,
    old: &InterfaceState,
    new: &InterfaceState,
    steps: &mut Steps<L>,
)
    requires claimed { (q : List ℕ) → rows.is_name name.now q ≡ true → uses_by q old.now ≡ true
        → 0 < claims_in graph.old.known q }
    requires known { (q : List ℕ) → rows.is_name name.now q ≡ true → uses_by q new.now ≡ true
        → is_some (place_among graph.old.known.names q) ≡ true }
    requires few { (q : List ℕ) → rows.is_name name.now q ≡ true
        → claims_in graph.old.known q + claim_of q new.now ≤ 1024 + claim_of q old.now }
    ensures moves { MovesNamed name.now old.now new.now graph.old.known graph.new.known }
    ensures stays { DiffersInClaims graph.old graph.new }
{
    match name {
        Some(name) => move_claim(graph, name, old.uses(name), new.uses(name), steps),
        None => {}
    }
}

// A name is claimed once less where one used it, and once more where one uses it.
fn move_claim<L: Ledger>(
    graph: &mut Graph,
    name: &DevName,
    used: bool,
    uses: bool,
    steps: &mut Steps<L>,
)
    requires claimed { used ≡ true → 0 < claims_in graph.old.known name.now }
    requires known { uses ≡ true
        → is_some (place_among graph.old.known.names name.now) ≡ true }
    requires few { claims_in graph.old.known name.now + spec.one uses ≤ 1024 + spec.one used }
    ensures moves { (q : List ℕ) → claims_in graph.new.known q + spec.one_at name.now q used
        ≡ claims_in graph.old.known q + spec.one_at name.now q uses }
    ensures stays { DiffersInClaims graph.old graph.new }
{
    if used == uses {
        return;
    }
    let Some(id) = graph.find(name) else {
        return;
    };
    let claims = graph.claims(id);
    let moved = if uses { claims + 1 } else { claims - 1 };
    graph.set_claim(id, moved, steps);
}
