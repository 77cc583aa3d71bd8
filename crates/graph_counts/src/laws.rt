ghost use Rattle.std.specs.Prelude.{◌≡◌, ◌<◌, ℕ, length};
ghost use Rattle.use_counts.specs.Network.{Network};
ghost use Rattle.use_counts.specs.Network as counts;
ghost use Rattle.graph_rules.specs.State.{Known, names_in};
ghost use Rattle.graph_rules.specs.Answers.{available_in, link_in, used_in, users_in};
ghost use Rattle.graph_counts.specs.Counted.{HasIds, IsCounted, name_of, network_of};
ghost use Rattle.graph_counts.specs.Sound.{IsSound};

/// The counted graph below a graph answers for the id of a name as the graph does for the name.
pub fn ids_answer_as_their_names()
    ensures available { (s : Known) (net : Network) → HasIds s → IsCounted s net → (id : ℕ)
        → id < length (names_in s) → counts.available net id ≡ available_in s (name_of s id) }
    ensures link { (s : Known) (net : Network) → HasIds s → IsCounted s net → (id : ℕ)
        → id < length (names_in s) → counts.link net id ≡ link_in s (name_of s id) }
    ensures used { (s : Known) (net : Network) → HasIds s → IsCounted s net → (id : ℕ)
        → id < length (names_in s) → counts.used net id ≡ used_in s (name_of s id) }
    ensures users { (s : Known) (net : Network) → HasIds s → IsCounted s net → (id : ℕ)
        → id < length (names_in s) → counts.users net id ≡ users_in s (name_of s id) }
{}

/// Sound names have ids, and their network is one that the ids answer for.
pub fn sound_names_are_counted()
    ensures ids { (s : Known) → IsSound s → HasIds s }
    ensures counted { (s : Known) → IsSound s → IsCounted s (network_of s) }
{}
