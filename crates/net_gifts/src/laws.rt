// Laws of the definitions. Each body is empty, and the contract is the law.
ghost use Rattle.std.specs.Prelude.{◌≡◌, ◌≤◌, ◌+◌, ◌-◌, ◌*◌, ℕ, List, Some, Contains, fold, length};
ghost use Rattle.std.specs.Prelude.{slice_get, slice_set};
ghost use Rattle.std.specs.List.{flat_map};
ghost use Rattle.kern_model.specs.declared.object.Object.{Object};
ghost use Rattle.net_rows.specs.declared.rows.InterfaceRow.{InterfaceRow};
ghost use Rattle.net_rules.specs.Facts.{Facts};
ghost use Rattle.net_rules.specs.Rows.{interfaces_of};
ghost use Rattle.net_rules.specs.Want.{given};
ghost use Rattle.net_rules.specs.declared.state.InterfaceState.{InterfaceState};
ghost use Rattle.net_rules.specs.States.{AreStates};
ghost use Rattle.given_objects.specs.Gifts.{Gifts, has_place, givers_of, held_of};
ghost use Rattle.given_objects.specs.Changes.{given_once_more, given_once_less};
ghost use Rattle.net_gifts.specs.Giving.{times_in, gives, all_gives, HavePlaces, DiffersInGivers};

/// What interfaces give that are what facts say is what the rules give. Where one interface becomes
/// another, what the one gave is given once less, and what the other gives once more. What one
/// gives is given, and nothing is given more often than all give something. Facts by which each
/// interface gives the same are one here.
pub fn gifts_are_counted()
    ensures rules { (facts : Facts) (states : List InterfaceState)
        → AreStates facts facts.conf.interfaces states
        → all_gives facts facts.conf.interfaces states
        ≡ flat_map (given facts) (interfaces_of facts.conf) }
    ensures moves { (facts : Facts) (rows : List InterfaceRow) (states : List InterfaceState)
        (place : ℕ) (row : InterfaceRow) (old new : InterfaceState) (o : Object)
        → slice_get rows place ≡ Some row → slice_get states place ≡ Some old
        → times_in o (all_gives facts rows (slice_set states place new))
        + times_in o (gives facts row old)
        ≡ times_in o (all_gives facts rows states) + times_in o (gives facts row new) }
    ensures part { (facts : Facts) (rows : List InterfaceRow) (states : List InterfaceState)
        (place : ℕ) (row : InterfaceRow) (st : InterfaceState) (o : Object)
        → slice_get rows place ≡ Some row → slice_get states place ≡ Some st
        → times_in o (gives facts row st) ≤ times_in o (all_gives facts rows states) }
    ensures few { (facts : Facts) (rows : List InterfaceRow) (states : List InterfaceState)
        (most : ℕ) (o : Object) → ((row : InterfaceRow) (st : InterfaceState) → Contains rows row
        → length (gives facts row st) ≤ most)
        → times_in o (all_gives facts rows states) ≤ length rows * most }
    ensures same { (before now : Facts) (rows : List InterfaceRow) (states : List InterfaceState)
        → ((place : ℕ) (row : InterfaceRow) (st : InterfaceState)
        → slice_get rows place ≡ Some row → slice_get states place ≡ Some st
        → gives now row st ≡ gives before row st)
        → all_gives now rows states ≡ all_gives before rows states }
{}

/// What is given once more, or once less, one after the other, moves the givers of each object by
/// how often it is among it.
pub fn gifts_move_with_lists()
    ensures give { (gs : Gifts) (os : List Object) (o : Object) → HavePlaces gs os
        → givers_of (fold given_once_more gs os) o ≡ givers_of gs o + times_in o os }
    ensures withdraw { (gs : Gifts) (os : List Object) (o : Object)
        → givers_of (fold given_once_less gs os) o ≡ givers_of gs o - times_in o os }
    ensures more { (gs : Gifts) (os : List Object)
        → DiffersInGivers gs (fold given_once_more gs os) }
    ensures less { (gs : Gifts) (os : List Object)
        → DiffersInGivers gs (fold given_once_less gs os) }
{}

/// Gifts that differ in their givers alone have the same places, and the same objects are held.
pub fn others_than_givers_stay()
    ensures places { (before now : Gifts) (o : Object) → DiffersInGivers before now
        → has_place now o ≡ has_place before o }
    ensures held { (before now : Gifts) → DiffersInGivers before now
        → held_of now ≡ held_of before }
{}
