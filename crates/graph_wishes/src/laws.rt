//! Laws of the objects that a graph of devices may want.
ghost use Rattle.std.specs.Prelude.{◌≡◌, map, Contains};
ghost use Rattle.kern_model.specs.ObjectOrder.{set_of};
ghost use Rattle.net_rules.specs.Sound.{HasSoundVlans};
ghost use Rattle.graph_rules.specs.State.{Known};
ghost use Rattle.graph_rules.specs.Wanted.{want_in};
ghost use Rattle.graph_counts.specs.Sound.{conf_of, IsSound};
ghost use Rattle.graph_objects.specs.Keys.{key_of};
ghost use Rattle.graph_objects.specs.Steady.{IsGrounded};
ghost use Rattle.graph_wishes.specs.Wishes.{May, mays, used_mays};

/// What is wanted are the objects that may be wanted of which both names are used.
pub fn wants_are_used_mays()
    ensures { (s : Known) → want_in s ≡ set_of (used_mays s (mays s)) }
{}

/// Of the objects that sound rows may want there is one of a key, and no VLAN among them is under
/// itself.
pub fn mays_are_apart()
    ensures apart { (s : Known) → IsSound s
        → HasSoundVlans (record (conf_of s.rows) { vlans = s.vlans }) → (m n : May)
        → Contains (mays s) m → Contains (mays s) n → key_of m.object ≡ key_of n.object
        → m ≡ n }
    ensures grounded { (s : Known) → IsSound s
        → IsGrounded (set_of (map (λ m. m.object) (mays s))) }
{}
