// Laws of the definitions. Each body is empty, and the contract is the law.
ghost use Rattle.std.specs.Prelude.{◌≡◌, ◌↔◌, ◌≤◌, ◌<◌, ◌+◌, ◌*◌, ◌^◌, ◌++◌, ℕ, List, [], Contains};
ghost use Rattle.std.specs.Prelude.{map, length, None, true, false};
ghost use Rattle.uci_tree.specs.declared.package.Package.{Package};
ghost use Rattle.plane_words.specs.Distinct.{AreDistinct};
ghost use Rattle.kern_model.specs.declared.object.Object.{Object};
ghost use Rattle.kern_model.specs.declared.object.Call.{Call};
ghost use Rattle.kern_model.specs.ObjectOrder.{Objects, Has};
ghost use Rattle.kern_calls.specs.Lower.{is_lower, lower_part};
ghost use Rattle.net_rows.specs.declared.rows.Conf.{Conf};
ghost use Rattle.net_rows.specs.declared.rows.InterfaceRow.{InterfaceRow};
ghost use Rattle.net_rules.specs.declared.inputs.Inputs.{Inputs};
ghost use Rattle.net_rules.specs.Facts.{Facts};
ghost use Rattle.net_rules.specs.Rows.{names_of, interfaces_of};
ghost use Rattle.net_rules.specs.RadioPorts.{radio_ports};
ghost use Rattle.net_rules.specs.Sound.{IsSound as AreSound};
ghost use Rattle.net_rules.specs.Available.{available, link};
ghost use Rattle.net_rules.specs.Want.{given, want};
ghost use Rattle.net_rules.specs.Inputs.{facts_of};
ghost use Rattle.net_rules.specs.Moment.{devices_of, AreWithin};
ghost use Rattle.net_rules.specs.Refusal.{is_held_link};
ghost use Rattle.net_conf.specs.Conf.{conf};
ghost use Rattle.net_conf.specs.Limits.{passed_limit};
ghost use Rattle.graph_rules.specs.declared.ids.RadioPort.{RadioPort};
ghost use Rattle.graph_rules.specs.State.{Named, Known, State, name_list, names_in, place_among};
ghost use Rattle.graph_rules.specs.State.{devices_in};
ghost use Rattle.graph_rules.specs.Answers.{port_of, available_in, link_in, used_in};
ghost use Rattle.graph_rules.specs.Calls.{loses_link_in};
ghost use Rattle.graph_rules.specs.After.{known_of, with_names, did_after};
ghost use Rattle.graph_rules.specs.Agreeing.{Agrees, SharesUsed, wanted_on_names};
ghost use Rattle.graph_rules.specs.Conditions.{ArePorts, CanLoad, IsNext};
ghost use Rattle.graph_rules.specs.Edges.{edges_in};
ghost use Rattle.graph_rules.specs.Wanted.{want_in};
ghost use Rattle.graph_counts.specs.Counted.{network_of};
ghost use Rattle.graph_counts.specs.Sound.{IsSound};
ghost use Rattle.graph_laws.specs.Knowing.{AreFurther, KnowsRows};
ghost use Rattle.graph_laws.specs.Below.{AgreesBelow};
ghost use Rattle.graph_laws.specs.Links.{HoldsLinksOfRows};

/// Rows that are read and pass no limit can be loaded into a graph, with further names, and with
/// ports that radios may have.
pub fn rows_that_are_read_can_be_loaded()
    ensures alone { (network wireless : Package) → passed_limit (conf network wireless) ≡ None
        → CanLoad (conf network wireless) [] [] }
    ensures more { (network wireless : Package) (plain : List (List ℕ)) (radio : List RadioPort)
        → let rows = conf network wireless in passed_limit rows ≡ None → AreFurther rows plain
        → ArePorts rows.names (names_of rows ++ plain) radio → CanLoad rows plain radio }
    ensures radios { (network wireless : Package) (facts : Facts) (plain : List (List ℕ))
        (radio : List RadioPort) → facts.conf ≡ conf network wireless
        → passed_limit facts.conf ≡ None → AreFurther facts.conf plain
        → map port_of radio ≡ radio_ports facts → ((p : RadioPort) → Contains radio p
        → Contains (names_of facts.conf ++ plain) p.port) → CanLoad facts.conf plain radio }
{}

/// The ports that radios of a network have may be ports of a graph, where that knows their names.
pub fn ports_of_radios_may_be_ports()
    ensures { (facts : Facts) (names : List (List ℕ)) (radio : List RadioPort)
        → map port_of radio ≡ radio_ports facts
        → ((p : RadioPort) → Contains radio p → Contains names p.port)
        → ArePorts facts.conf.names names radio }
{}

/// A sound graph has no more edges than twice its rows and its names together, by names and as they
/// are counted.
pub fn sound_graphs_have_few_edges()
    ensures named { (s : Known) → IsSound s
        → length (edges_in s) ≤ 2 * length s.rows + length s.names }
    ensures counted { (s : Known) → IsSound s → length (network_of s).fixed
        + length (network_of s).ports ≤ 2 * length s.rows + length s.names }
{}

/// What can be loaded brings fewer than 2^20 edges, where there are fewer than 2^19 further names.
pub fn loads_bring_few_edges()
    ensures named { (old : List Named) (rows : Conf) (plain : List (List ℕ))
        (radio : List RadioPort) → CanLoad rows plain radio → length plain < 2 ^ 19
        → length (edges_in (known_of old rows plain radio)) < 2 ^ 20 }
    ensures counted { (old : List Named) (rows : Conf) (plain : List (List ℕ))
        (radio : List RadioPort) → CanLoad rows plain radio → length plain < 2 ^ 19
        → let net = network_of (known_of old rows plain radio) in
        length net.fixed + length net.ports < 2 ^ 20 }
{}

/// A graph shares the used names of a network with sound rows, where it knows the names of the
/// rows. So beside rows that were read it wants on its names what the network wants on all names. A
/// graph knows the rows that were loaded, and a sound one knows its rows.
pub fn used_names_are_shared()
    ensures shares { (facts : Facts) (s : Known) → AreSound facts.conf → Agrees facts s
        → KnowsRows s → SharesUsed facts s }
    ensures wants { (network wireless : Package) (facts : Facts) (s : Known)
        → facts.conf ≡ conf network wireless → Agrees facts s → KnowsRows s
        → want_in s ≡ wanted_on_names facts }
    ensures loaded { (old : List Named) (rows : Conf) (plain : List (List ℕ))
        (radio : List RadioPort) → KnowsRows (known_of old rows plain radio) }
    ensures sound { (s : Known) → IsSound s → KnowsRows s }
{}

/// Whatever its claims are, a graph with the rows, ports of radios and devices of a network tells
/// as that network which names are available and which have link. A name that it does not know is
/// neither.
pub fn answers_need_no_claims()
    ensures available { (facts : Facts) (s : Known) → AgreesBelow facts s
        → (name : List ℕ) → available_in s name ≡ available facts name }
    ensures link { (facts : Facts) (s : Known) → AgreesBelow facts s
        → (name : List ℕ) → link_in s name ≡ link facts name }
    ensures unknown { (facts : Facts) (s : Known) → AgreesBelow facts s → KnowsRows s
        → (name : List ℕ) → place_among s.names name ≡ None
        → (available facts name ≡ false) × (link facts name ≡ false) }
{}

/// With the claims of its interfaces it wants what a network with sound rows wants, without
/// addresses and routes, and these are what interfaces give. Its devices are those of the network
/// where it has each name once. The links of a set are those of its lower part.
pub fn graphs_want_the_lower_part()
    ensures wants { (facts : Facts) (s : Known) → AreSound facts.conf → Agrees facts s
        → KnowsRows s → want_in s ≡ lower_part (want facts) }
    ensures given { (facts : Facts) (o : Object) → is_lower o ≡ false → Has (want facts) o
        ↔ ((row : InterfaceRow) × Contains (interfaces_of facts.conf) row
        × Contains (given facts row) o) }
    ensures devices { (inputs : Inputs) (s : Known) → AgreesBelow (facts_of inputs) s
        → AreDistinct (names_in s) → devices_in s ≡ devices_of inputs }
    ensures links { (held : Objects) (name : List ℕ)
        → is_held_link (lower_part held) name ≡ is_held_link held name }
{}

/// Where each link that a sound graph holds is one of its rows, no used name loses its link. Calls
/// of the graph keep that, and so do names with other devices and claims, further names, and
/// objects that go. So it is once all that is wanted is held.
pub fn links_of_rows_are_kept()
    ensures used { (s : State) → IsSound s.known → HoldsLinksOfRows s → (name : List ℕ)
        → used_in s.known name ≡ true → loses_link_in s name ≡ false }
    ensures kept { (s : State) (call : Call) → HoldsLinksOfRows s → IsNext s call
        → HoldsLinksOfRows (did_after s call) }
    ensures stays { (s : State) (names : List Named) (held : Objects) → HoldsLinksOfRows s
        → ((name : List ℕ) → Contains (names_in s.known) name → Contains (name_list names) name)
        → AreWithin held s.held → HoldsLinksOfRows (record (with_names s names) { held = held }) }
    ensures settled { (s : State) → s.held ≡ want_in s.known → HoldsLinksOfRows s }
{}
