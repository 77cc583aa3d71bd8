// Laws of inputs in which names stand once. Each body is empty, and the contract is the law.
ghost use Rattle.std.specs.Prelude.{◌≡◌, ◌<◌, ◌≤◌, ℕ, List, Contains, Some, None, length};
ghost use Rattle.net_rows.specs.declared.rows.Conf.{Conf};
ghost use Rattle.net_rules.specs.declared.inputs.Inputs.{Inputs};
ghost use Rattle.net_rules.specs.declared.inputs.OpenInterface.{OpenInterface};
ghost use Rattle.net_rules.specs.declared.event.Event.{Event};
ghost use Rattle.net_rules.specs.Inputs.{no_inputs, open_interface};
ghost use Rattle.net_rules.specs.After.{after};
ghost use Rattle.net_rules.specs.Fresh.{IsReached};
ghost use Rattle.net_rules.specs.Moment.{Moment};
ghost use Rattle.net_rules.specs.Refusal.{refusal};
ghost use Rattle.known_inputs.specs.Known.{AreOfRows, IsNamed, StandOnce, commanded_names};
ghost use Rattle.known_inputs.specs.Steps.{request_of};

/// What stands once in inputs that events lead to: all does, where operator states are for
/// interfaces of the rows. An event that is not refused keeps that.
pub fn events_stand_once()
    ensures nothing { StandOnce no_inputs }
    ensures reached { (inputs : Inputs) → IsReached inputs
        → ((name : List ℕ) → Contains (commanded_names inputs) name → IsNamed inputs.conf name)
        → StandOnce inputs }
    ensures goes_on { (moment : Moment) (event : Event) → IsReached moment.inputs
        → StandOnce moment.inputs → refusal moment event ≡ None
        → StandOnce (after moment.inputs event) }
{}

/// An open request is that of its number, and that of its interface.
pub fn requests_are_found()
    ensures number { (inputs : Inputs) (o : OpenInterface) → StandOnce inputs
        → Contains inputs.interfaces o → request_of inputs o.number ≡ Some o }
    ensures name { (inputs : Inputs) (o : OpenInterface) → StandOnce inputs
        → Contains inputs.interfaces o → open_interface inputs.interfaces o.request.name ≡ Some o }
{}

/// Distinct names of interfaces of the rows are no more than the rows, and fewer where there is
/// another interface.
pub fn names_of_rows_are_few()
    ensures most { (conf : Conf) (names : List (List ℕ)) → AreOfRows conf names
        → length names ≤ length conf.interfaces }
    ensures fewer { (conf : Conf) (names : List (List ℕ)) (other : List ℕ) → AreOfRows conf names
        → IsNamed conf other → (Contains names other → ⊥)
        → length names < length conf.interfaces }
{}
