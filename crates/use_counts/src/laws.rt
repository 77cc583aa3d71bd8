ghost use Rattle.std.specs.Prelude.{◌≡◌, ℕ, List};
ghost use Rattle.use_counts.specs.Held.{Member};
ghost use Rattle.use_counts.specs.Network.{IsAlone, Network, available, changed_edges, link, used};
ghost use Rattle.use_counts.specs.Network.{users, with_member};
ghost use Rattle.use_counts.specs.Rows.{AreRows, Standing, joined, row_available, row_link};
ghost use Rattle.use_counts.specs.Rows.{row_used, row_users};

/// Over the edges of rows and of the ports of radios, recursion over edges is recursion over the
/// rows that name their lowers, each bridge with the ports that radios give it behind its own.
pub fn edges_are_of_the_rows()
    ensures available { (rows : List Standing) (net : Network) → AreRows rows net → (k : ℕ)
        → available net k ≡ row_available (joined net.ports rows) net k }
    ensures link { (rows : List Standing) (net : Network) → AreRows rows net → (k : ℕ) → link net k
        ≡ row_link (joined net.ports rows) net k }
    ensures used { (rows : List Standing) (net : Network) → AreRows rows net → (k : ℕ) → used net k
        ≡ row_used (joined net.ports rows) net k }
    ensures users { (rows : List Standing) (net : Network) → AreRows rows net → (k : ℕ)
        → users net k ≡ row_users (joined net.ports rows) net k }
{}

/// What is told of a node at no edge changes no answer at an end of an edge, so that an event there
/// takes one step at most.
pub fn lone_nodes_change_no_edge()
    ensures { (net : Network) (k : ℕ) (p : Member) → IsAlone net k
        → changed_edges net (with_member net k p) ≡ 0 }
{}
