// Laws of the definitions. Each body is empty, and the contract is the law.
ghost use Rattle.std.specs.Prelude.{◌≡◌, ◌↔◌, ℕ, List, [], ◌∷◌, Bool, Contains, map, Some, true};
ghost use Rattle.std.specs.Prelude.{false, slice_get};
ghost use Rattle.kern_model.specs.declared.object.DevEvent.{DevEvent};
ghost use Rattle.net_rows.specs.declared.rows.InterfaceRow.{InterfaceRow};
ghost use Rattle.net_rules.specs.declared.inputs.Inputs.{Inputs};
ghost use Rattle.net_rules.specs.declared.inputs.OpenInterface.{OpenInterface};
ghost use Rattle.net_rules.specs.declared.event.Event.TheVariants as event;
ghost use Rattle.net_rules.specs.Rows.{interfaces_of, interface_named};
ghost use Rattle.net_rules.specs.Need.{interface_request};
ghost use Rattle.net_rules.specs.Inputs.{facts_of};
ghost use Rattle.net_rules.specs.After.{changed};
ghost use Rattle.net_rules.specs.Fresh.{IsReached};
ghost use Rattle.net_rules.specs.Reach.{name_of};
ghost use Rattle.net_rules.specs.Touched.{asked_of};
ghost use Rattle.net_rules.specs.declared.state.InterfaceState.{InterfaceState};
ghost use Rattle.net_rules.specs.States.{is_first, IsStateOf};
ghost use Rattle.net_view.specs.Places.{place_of};
ghost use Rattle.net_reach.specs.Reach.{AreTouched};
ghost use Rattle.asked_places.specs.Touched.{is_touched};
ghost use Rattle.touch_laws.specs.Staying.{StaysAs, FollowTouched, told_of};

/// What happens to a device leaves alone each interface that does not stand at one of the places
/// that the walk up from its name finds. The requests of the others alone follow it. The walk finds
/// the same before and after it.
pub fn devices_touch_the_places_above()
    ensures stay { (inputs : Inputs) (what : DevEvent) (places : List ℕ) (row : InterfaceRow)
        → AreTouched inputs (name_of what) places → Contains (interfaces_of inputs.conf) row
        → is_touched inputs.conf.interfaces places row.name ≡ false
        → StaysAs (facts_of inputs) (facts_of (changed inputs (event.Device what))) row }
    ensures follow { (inputs : Inputs) (what : DevEvent) (places : List ℕ) → IsReached inputs
        → AreTouched inputs (name_of what) places → FollowTouched inputs (event.Device what)
        (is_touched inputs.conf.interfaces places) }
    ensures found { (inputs : Inputs) (what : DevEvent) (places : List ℕ)
        → AreTouched (changed inputs (event.Device what)) (name_of what) places
        ↔ AreTouched inputs (name_of what) places }
{}

/// An operator state leaves alone each interface that does not stand at the place of its own, and
/// the requests of that one alone follow it.
pub fn operator_states_touch_one_place()
    ensures stay { (inputs : Inputs) (interface : List ℕ) (up : Bool) (place : ℕ)
        (row : InterfaceRow)
        → place_of (map (λ row. row.name) inputs.conf.interfaces) interface ≡ Some place
        → is_touched inputs.conf.interfaces (place ∷ []) row.name ≡ false
        → StaysAs (facts_of inputs) (facts_of (changed inputs (event.Operator interface up))) row }
    ensures follow { (inputs : Inputs) (interface : List ℕ) (up : Bool) (place : ℕ)
        → IsReached inputs
        → place_of (map (λ row. row.name) inputs.conf.interfaces) interface ≡ Some place
        → FollowTouched inputs (event.Operator interface up)
        (is_touched inputs.conf.interfaces (place ∷ [])) }
{}

/// Inputs that events led to have the requests that they need: whichever interfaces are touched,
/// their asks stay, and nothing is told. Each is what the handler of its row is asked.
pub fn needed_requests_stay()
    ensures stay { (inputs : Inputs) (touched : List ℕ → Bool) → IsReached inputs
        → asked_of touched inputs ≡ inputs }
    ensures told { (inputs : Inputs) (touched : List ℕ → Bool) → IsReached inputs
        → told_of touched inputs ≡ [] }
    ensures own { (inputs : Inputs) (o : OpenInterface) (row : InterfaceRow) → IsReached inputs
        → Contains inputs.interfaces o → interface_named inputs.conf o.request.name ≡ Some row
        → o.request ≡ interface_request (facts_of inputs) row }
{}

/// What the first row of a name is stays so where its place is none of those that a device touches,
/// and not that of an operator state's interface.
pub fn untouched_states_stay()
    ensures device { (inputs : Inputs) (what : DevEvent) (places : List ℕ) (place : ℕ)
        (row : InterfaceRow) (st : InterfaceState) → AreTouched inputs (name_of what) places
        → slice_get inputs.conf.interfaces place ≡ Some row
        → is_first inputs.conf.interfaces place row.name ≡ true → (Contains places place → ⊥)
        → IsStateOf (facts_of inputs) row st
        → IsStateOf (facts_of (changed inputs (event.Device what))) row st }
    ensures operator_state { (inputs : Inputs) (interface : List ℕ) (up : Bool) (own place : ℕ)
        (row : InterfaceRow) (st : InterfaceState)
        → place_of (map (λ row. row.name) inputs.conf.interfaces) interface ≡ Some own
        → slice_get inputs.conf.interfaces place ≡ Some row
        → is_first inputs.conf.interfaces place row.name ≡ true → (Contains (own ∷ []) place → ⊥)
        → IsStateOf (facts_of inputs) row st
        → IsStateOf (facts_of (changed inputs (event.Operator interface up))) row st }
{}
