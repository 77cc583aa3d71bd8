// Laws of the definitions. Each body is empty, and the contract is the law.
ghost use Rattle.std.specs.Prelude.{◌≡◌, ◌⊎◌, List, Contains, true, false};
ghost use Rattle.kern_model.specs.declared.object.Object.{Object};
ghost use Rattle.given_objects.specs.declared.gift.Gift.{Gift};
ghost use Rattle.given_objects.specs.Gifts.{Gifts, has_place, givers_of, held_of, given_of};
ghost use Rattle.given_objects.specs.Gifts.{is_given};
ghost use Rattle.net_gifts.specs.Giving.{HavePlaces};
ghost use Rattle.gift_places.specs.Expecting.{with_places, all_held_alone};

/// Where there are more places, as much is held and given as before, each object is given as often,
/// and what had a place has it still. A gift that is new is neither held nor given. Each of the
/// objects has a place. Gifts of which only what is held is kept hold the same, and nothing is
/// given.
pub fn places_change_nothing()
    ensures held { (gs : Gifts) (os : List Object) → held_of (with_places gs os) ≡ held_of gs }
    ensures given { (gs : Gifts) (os : List Object) → given_of (with_places gs os) ≡ given_of gs }
    ensures givers { (gs : Gifts) (os : List Object) (o : Object)
        → givers_of (with_places gs os) o ≡ givers_of gs o }
    ensures stay { (gs : Gifts) (os : List Object) (o : Object) → has_place gs o ≡ true
        → has_place (with_places gs os) o ≡ true }
    ensures all { (gs : Gifts) (os : List Object) → HavePlaces (with_places gs os) os }
    ensures gifts { (gs : Gifts) (os : List Object) (g : Gift) → Contains (with_places gs os) g
        → Contains gs g ⊎ ((g.held ≡ false) × (is_given g ≡ false)) }
    ensures alone { (gs : Gifts) → held_of (all_held_alone gs) ≡ held_of gs }
    ensures none { (gs : Gifts) (o : Object) → givers_of (all_held_alone gs) o ≡ 0 }
{}
