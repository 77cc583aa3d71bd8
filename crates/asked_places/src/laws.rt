// Laws of the definitions. Each body is empty, and the contract is the law.
ghost use Rattle.std.specs.Prelude.{◌≡◌, ◌<◌, ◌↔◌, ◌==◌, ◌++◌, [], ◌∷◌, ℕ, List, None, Some};
ghost use Rattle.std.specs.Prelude.{Contains, fold, length, map, option_to_list, slice_get, true};
ghost use Rattle.std.specs.Prelude.{false};
ghost use Rattle.std.specs.List.{IsDistinct};
ghost use Rattle.std.specs.List.Sorted.{IsStrictlySortedBy};
ghost use Rattle.std.specs.Ordering.{nat_cmp};
ghost use Rattle.net_rows.specs.declared.rows.InterfaceRow.{InterfaceRow};
ghost use Rattle.net_rules.specs.declared.inputs.Inputs.{Inputs};
ghost use Rattle.net_rules.specs.declared.inputs.OpenInterface.{OpenInterface};
ghost use Rattle.net_rules.specs.Inputs.{facts_of, open_interface};
ghost use Rattle.net_rules.specs.Numbers.{AreRising};
ghost use Rattle.net_rules.specs.After.{opened_interfaces};
ghost use Rattle.net_rules.specs.Notices.{interface_notice};
ghost use Rattle.net_rules.specs.Touched.{is_needed, lost_numbers, touched_requests, asked_of};
ghost use Rattle.known_inputs.specs.Known.{StandOnce};
ghost use Rattle.known_inputs.specs.Steps.{without_request};
ghost use Rattle.net_rules.specs.States.{is_first};
ghost use Rattle.asked_places.specs.Touched.{has, is_touched};
ghost use Rattle.asked_places.specs.Losing.{lost_at, lost_at_places, left_at};
ghost use Rattle.asked_places.specs.Opening.{opened_after, told_of_all};

/// The requests of touched interfaces that are no longer needed are lost one place after the other:
/// at no place none; what is lost at a place more, behind others, is what is lost at all of them.
pub fn requests_are_lost_by_place()
    ensures none { (inputs : Inputs) → left_at inputs [] ≡ inputs }
    ensures more { (inputs : Inputs) (done : List ℕ) (place : ℕ)
        → left_at (left_at inputs done) (place ∷ []) ≡ left_at inputs (done ++ place ∷ []) }
    ensures lost { (inputs : Inputs) (done : List ℕ) (place : ℕ) → has done place ≡ false
        → lost_at (left_at inputs done) place ≡ lost_at inputs place }
    ensures numbers { (inputs : Inputs) (done : List ℕ) (place : ℕ)
        → lost_at_places inputs (done ++ place ∷ [])
        ≡ lost_at_places inputs done ++ option_to_list (lost_at inputs place) }
{}

/// What is lost at a place is the open request of its row, where that is the first of its name and
/// is not needed; it goes by its number. Where none is lost, the requests stay.
pub fn lost_requests_are_those_of_touched()
    ensures one { (inputs : Inputs) (place : ℕ) (row : InterfaceRow) (o : OpenInterface)
        → StandOnce inputs → slice_get inputs.conf.interfaces place ≡ Some row
        → is_first inputs.conf.interfaces place row.name ≡ true
        → open_interface inputs.interfaces row.name ≡ Some o → is_needed (facts_of inputs) o ≡ false
        → (left_at inputs (place ∷ []) ≡ without_request inputs o.number)
        × (lost_at inputs place ≡ Some o.number) }
    ensures stay { (inputs : Inputs) (place : ℕ) → StandOnce inputs → lost_at inputs place ≡ None
        → left_at inputs (place ∷ []) ≡ inputs }
{}

/// Places below a bound that are in order rise.
pub fn places_in_order_rise()
    ensures { (bound : ℕ) (places : List ℕ) → IsStrictlySortedBy nat_cmp places
        → ((place : ℕ) → Contains places place → place < bound) → AreRising 0 bound places }
{}

/// At rising places each number is lost once. In order these are the numbers that touched
/// interfaces lose.
pub fn lost_numbers_are_in_order()
    ensures once { (inputs : Inputs) (least bound : ℕ) (places : List ℕ) → StandOnce inputs
        → AreRising least bound places
        → IsDistinct (λ a b. a == b) (lost_at_places inputs places) }
    ensures told { (inputs : Inputs) (places numbers : List ℕ) → StandOnce inputs
        → IsStrictlySortedBy nat_cmp numbers
        → ((n : ℕ) → Contains numbers n ↔ Contains (lost_at_places inputs places) n)
        → numbers ≡ lost_numbers (facts_of inputs) (is_touched inputs.conf.interfaces places)
        inputs.interfaces }
{}

/// Where the requests that are lost at rising places are gone, those that are opened place by place
/// are the requests of touched interfaces, and what is told of each is told of them.
pub fn requests_are_opened_by_place()
    ensures asked { (inputs : Inputs) (places : List ℕ)
        → AreRising 0 (length inputs.conf.interfaces) places
        → fold opened_after (left_at inputs places) places
        ≡ asked_of (is_touched inputs.conf.interfaces places) inputs }
    ensures told { (inputs : Inputs) (places : List ℕ)
        → AreRising 0 (length inputs.conf.interfaces) places
        → told_of_all (left_at inputs places) places
        ≡ map (interface_notice inputs.conf) (opened_interfaces inputs.next
        (touched_requests inputs (is_touched inputs.conf.interfaces places)
        (left_at inputs places).interfaces)) }
{}
