// Laws of the definitions. Each body is empty, and the contract is the law.
ghost use Rattle.std.specs.Prelude.{◌≡◌, ◌≤◌, ◌<◌, ◌+◌, ℕ, List, Option, Some, filter, length};
ghost use Rattle.std.specs.Prelude.{slice_get, slice_set, true};
ghost use Rattle.net_rows.specs.declared.rows.InterfaceRow.{InterfaceRow};
ghost use Rattle.net_rules.specs.declared.answer.Answer.{Answer};
ghost use Rattle.net_rules.specs.Facts.{Facts};
ghost use Rattle.net_rules.specs.Rows.{interfaces_of};
ghost use Rattle.net_rules.specs.RadioPorts.{device_of};
ghost use Rattle.net_rules.specs.Available.{available};
ghost use Rattle.net_rules.specs.Interfaces.{is_claimed, is_ready, is_up, l3_device_of};
ghost use Rattle.net_rules.specs.Used.{uses};
ghost use Rattle.net_rules.specs.declared.state.InterfaceState.{InterfaceState};
ghost use Rattle.net_rules.specs.Claims.{uses_by, claim_of, claims_of};
ghost use Rattle.net_rules.specs.States.{IsStateOf, AreStates};

/// The claims that are counted over what interfaces are by facts are the interfaces that use a
/// name. Where one interface becomes another, those that use the name before and after move by one.
/// There are no more than interfaces, and one where one uses the name.
pub fn claims_are_counted()
    ensures users { (facts : Facts) (states : List InterfaceState)
        → AreStates facts facts.conf.interfaces states → (name : List ℕ)
        → claims_of states name ≡ length (filter (uses facts name) (interfaces_of facts.conf)) }
    ensures moves { (states : List InterfaceState) (place : ℕ) (old new : InterfaceState)
        (name : List ℕ) → slice_get states place ≡ Some old
        → claims_of (slice_set states place new) name + claim_of name old
        ≡ claims_of states name + claim_of name new }
    ensures few { (states : List InterfaceState) (name : List ℕ)
        → claims_of states name ≤ length states }
    ensures some { (states : List InterfaceState) (place : ℕ) (st : InterfaceState)
        (name : List ℕ) → slice_get states place ≡ Some st → uses_by name st ≡ true
        → 0 < claims_of states name }
{}

/// What an interface uses is available.
pub fn used_names_are_available()
    ensures { (facts : Facts) (row : InterfaceRow) (st : InterfaceState) → IsStateOf facts row st
        → (name : List ℕ) → uses_by name st ≡ true → available facts name ≡ true }
{}

/// Other answers change nothing of an interface that has the same answer, and never its device, nor
/// whether it is claimed and ready.
pub fn answers_touch_one()
    ensures device { (facts : Facts) (answer : List ℕ → Option Answer) (row : InterfaceRow)
        → device_of (record facts { answer = answer }) row ≡ device_of facts row }
    ensures claimed { (facts : Facts) (answer : List ℕ → Option Answer) (row : InterfaceRow)
        → is_claimed (record facts { answer = answer }) row ≡ is_claimed facts row }
    ensures ready { (facts : Facts) (answer : List ℕ → Option Answer) (row : InterfaceRow)
        → is_ready (record facts { answer = answer }) row ≡ is_ready facts row }
    ensures state { (facts : Facts) (answer : List ℕ → Option Answer) (row : InterfaceRow)
        (st : InterfaceState) → answer row.name ≡ facts.answer row.name → IsStateOf facts row st
        → IsStateOf (record facts { answer = answer }) row st }
    ensures up { (facts : Facts) (answer : List ℕ → Option Answer) (row : InterfaceRow)
        → answer row.name ≡ facts.answer row.name
        → (l3_device_of (record facts { answer = answer }) row ≡ l3_device_of facts row)
        × (is_up (record facts { answer = answer }) row ≡ is_up facts row) }
{}
