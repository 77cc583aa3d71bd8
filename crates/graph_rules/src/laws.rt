ghost use Rattle.std.specs.Prelude.{◌≡◌, ◌+◌, ℕ, List, None, Some, length};
ghost use Rattle.net_rules.specs.Facts.{Facts};
ghost use Rattle.net_rules.specs.Available.{available, link};
ghost use Rattle.net_rules.specs.Used.{used, users};
ghost use Rattle.net_rules.specs.Want.{objects_at};
ghost use Rattle.net_rows.specs.declared.rows.Conf.{Conf};
ghost use Rattle.graph_rules.specs.declared.ids.RadioPort.{RadioPort};
ghost use Rattle.graph_rules.specs.State.{Known, State};
ghost use Rattle.graph_rules.specs.Answers.{available_in, link_in, used_in, users_in};
ghost use Rattle.graph_rules.specs.Wanted.{objects_in, want_in};
ghost use Rattle.graph_rules.specs.After.{loaded_after, all_told_again};
ghost use Rattle.graph_rules.specs.Agreeing.{Agrees, SharesUsed, wanted_on_names};

/// A graph with what a network's facts say, and with the claims of its interfaces, answers as that
/// network does.
pub fn answers_are_those_of_the_rules()
    ensures available { (facts : Facts) (s : Known) → Agrees facts s
        → (name : List ℕ) → available_in s name ≡ available facts name }
    ensures link { (facts : Facts) (s : Known) → Agrees facts s
        → (name : List ℕ) → link_in s name ≡ link facts name }
    ensures used { (facts : Facts) (s : Known) → Agrees facts s
        → (name : List ℕ) → used_in s name ≡ used facts name }
    ensures users { (facts : Facts) (s : Known) → Agrees facts s
        → (name : List ℕ) → users_in s name ≡ users facts name }
{}

/// And it wants on each name what that network wants, so on all of them, where it knows the names
/// that the network uses.
pub fn wishes_are_those_of_the_rules()
    ensures name { (facts : Facts) (s : Known) → Agrees facts s
        → (name : List ℕ) → objects_in s name ≡ objects_at facts name }
    ensures all { (facts : Facts) (s : Known) → Agrees facts s → SharesUsed facts s
        → want_in s ≡ wanted_on_names facts }
{}

/// A load over an old graph gives what a load of nothing gives once the devices and the claims that
/// its names had are told again, but for what is held, which stays, and the number of loads.
pub fn loads_keep_devices_and_claims()
    ensures { (old : State) (conf : Conf) (plain : List (List ℕ)) (radio : List RadioPort)
        → let fresh : State = loaded_after None conf plain radio in
        (record (all_told_again old.known.names (length fresh.known.names) fresh) {
          held = old.held;
          loads = old.loads + 1;
        }) ≡ loaded_after (Some old) conf plain radio }
{}
