// Laws of gifts. Each body is empty, and the contract is the law.
ghost use Rattle.std.specs.Prelude.{◌≡◌, ◌<◌, ◌+◌, ◌-◌, ℕ, [], Bool, Option, IfSome, IfNone, true};
ghost use Rattle.std.specs.Prelude.{false};
ghost use Rattle.std.specs.List.{find};
ghost use Rattle.std.specs.Option.{option_map};
ghost use Rattle.std.specs.FinSet as set;
ghost use Rattle.kern_model.specs.declared.object.Mac.{Mac};
ghost use Rattle.kern_model.specs.declared.object.Object.{Object};
ghost use Rattle.kern_model.specs.declared.object.Call.TheVariants.{Put, Take};
ghost use Rattle.kern_model.specs.ObjectOrder.{Objects};
ghost use Rattle.kern_model.specs.Line.{IsPrintable};
ghost use Rattle.kern_model.specs.Kernel.{Devices, after_call};
ghost use Rattle.kern_calls.specs.Calls.{own_take, calls};
ghost use Rattle.kern_calls.specs.Upper.{is_upper, upper_part, is_upper_take, is_upper_put};
ghost use Rattle.given_objects.specs.Gifts.{Gifts, AreGifts, has_place, givers_of, held_of};
ghost use Rattle.given_objects.specs.Gifts.{given_of};
ghost use Rattle.given_objects.specs.Changes.{with_place, given_once_more, given_once_less, noted};
ghost use Rattle.given_objects.specs.Changes.{with_lost_link};
ghost use Rattle.given_objects.specs.First.{is_take_due, is_put_due, plain_take, IsFirstGift};
ghost use Rattle.given_objects.specs.First.{NoneDue, KnowLostLinks};

/// A call of an address or a route that is noted does to what is held what it does in a kernel, and
/// nothing to what is given.
pub fn notes_follow_calls()
    ensures put { (gs : Gifts) (o : Object) → has_place gs o ≡ true → is_upper o ≡ true
        → held_of (noted gs o true) ≡ after_call (held_of gs) (Put o) }
    ensures take { (gs : Gifts) (o : Object) (mtu : ℕ) (mac : Mac)
        → held_of (noted gs o false) ≡ after_call (held_of gs) (Take o mtu mac) }
    ensures given { (gs : Gifts) (o : Object) (held : Bool)
        → given_of (noted gs o held) ≡ given_of gs }
{}

/// What is given once more is given. What is given once less is not given where one alone gave it,
/// and is given still where more did. What is held stays.
pub fn gifts_follow_givers()
    ensures give { (gs : Gifts) (o : Object) → has_place gs o ≡ true
        → given_of (given_once_more gs o) ≡ set.insert (given_of gs) o }
    ensures last { (gs : Gifts) (o : Object) → AreGifts gs → givers_of gs o ≡ 1
        → given_of (given_once_less gs o) ≡ set.remove (given_of gs) o }
    ensures others { (gs : Gifts) (o : Object) → AreGifts gs → 1 < givers_of gs o
        → given_of (given_once_less gs o) ≡ given_of gs }
    ensures held_more { (gs : Gifts) (o : Object) → held_of (given_once_more gs o) ≡ held_of gs }
    ensures held_less { (gs : Gifts) (o : Object) → held_of (given_once_less gs o) ≡ held_of gs }
{}

/// The first gift that is to be taken is that of the first take of an address or a route in the
/// list of the calls, where gifts that are held and given know whether their names fall. Where none
/// is to be taken, the same is so of puts.
pub fn first_gifts_are_first_calls()
    ensures take { (devices : Devices) (held wanted : Objects) (gs : Gifts) (found : Option Object)
        → AreGifts gs → upper_part held ≡ held_of gs → upper_part wanted ≡ given_of gs
        → KnowLostLinks held wanted gs → IfSome found (IsFirstGift is_take_due plain_take gs)
        → IfNone found (NoneDue is_take_due gs)
        → find is_upper_take (calls devices held wanted) ≡ option_map (own_take devices) found }
    ensures put { (devices : Devices) (held wanted : Objects) (gs : Gifts) (found : Option Object)
        → AreGifts gs → upper_part held ≡ held_of gs → upper_part wanted ≡ given_of gs
        → KnowLostLinks held wanted gs → NoneDue is_take_due gs
        → IfSome found (IsFirstGift is_put_due Put gs) → IfNone found (NoneDue is_put_due gs)
        → find is_upper_put (calls devices held wanted) ≡ option_map Put found }
{}

/// Places that are expected, and flags that are told, leave what is held and what is given.
pub fn places_and_flags_move_nothing()
    ensures place_held { (gs : Gifts) (o : Object) → held_of (with_place gs o) ≡ held_of gs }
    ensures place_given { (gs : Gifts) (o : Object) → given_of (with_place gs o) ≡ given_of gs }
    ensures loses_link_held { (gs : Gifts) (place : ℕ) (loses_link : Bool)
        → held_of (with_lost_link gs place loses_link) ≡ held_of gs }
    ensures loses_link_given { (gs : Gifts) (place : ℕ) (loses_link : Bool)
        → given_of (with_lost_link gs place loses_link) ≡ given_of gs }
{}

/// Gifts stay gifts: of distinct objects, each an address or a route of its form.
pub fn gifts_stay_gifts()
    ensures none { AreGifts [] }
    ensures place { (gs : Gifts) (o : Object) → is_upper o ≡ true → IsPrintable o → AreGifts gs
        → AreGifts (with_place gs o) }
    ensures give { (gs : Gifts) (o : Object) → AreGifts gs → AreGifts (given_once_more gs o) }
    ensures withdraw { (gs : Gifts) (o : Object) → AreGifts gs → AreGifts (given_once_less gs o) }
    ensures note { (gs : Gifts) (o : Object) (held : Bool) → AreGifts gs
        → AreGifts (noted gs o held) }
    ensures loses_link { (gs : Gifts) (place : ℕ) (loses_link : Bool) → AreGifts gs
        → AreGifts (with_lost_link gs place loses_link) }
{}

/// Places stay where they are, and one that is expected is there.
pub fn places_stay()
    ensures itself { (gs : Gifts) (o : Object) → has_place (with_place gs o) o ≡ true }
    ensures expect { (gs : Gifts) (o other : Object) → has_place gs other ≡ true
        → has_place (with_place gs o) other ≡ true }
    ensures give { (gs : Gifts) (o other : Object)
        → has_place (given_once_more gs o) other ≡ has_place gs other }
    ensures withdraw { (gs : Gifts) (o other : Object)
        → has_place (given_once_less gs o) other ≡ has_place gs other }
    ensures note { (gs : Gifts) (o : Object) (held : Bool) (other : Object)
        → has_place (noted gs o held) other ≡ has_place gs other }
    ensures loses_link { (gs : Gifts) (place : ℕ) (loses_link : Bool) (other : Object)
        → has_place (with_lost_link gs place loses_link) other ≡ has_place gs other }
{}

/// Giving and withdrawing move the count of their object by one, and nothing else moves a count.
pub fn givers_are_counted()
    ensures give { (gs : Gifts) (o : Object) → has_place gs o ≡ true
        → givers_of (given_once_more gs o) o ≡ givers_of gs o + 1 }
    ensures withdraw { (gs : Gifts) (o : Object)
        → givers_of (given_once_less gs o) o ≡ givers_of gs o - 1 }
    ensures give_others { (gs : Gifts) (o other : Object) → (other ≡ o → ⊥)
        → givers_of (given_once_more gs o) other ≡ givers_of gs other }
    ensures withdraw_others { (gs : Gifts) (o other : Object) → (other ≡ o → ⊥)
        → givers_of (given_once_less gs o) other ≡ givers_of gs other }
    ensures expect { (gs : Gifts) (o other : Object)
        → givers_of (with_place gs o) other ≡ givers_of gs other }
    ensures note { (gs : Gifts) (o : Object) (held : Bool) (other : Object)
        → givers_of (noted gs o held) other ≡ givers_of gs other }
    ensures loses_link { (gs : Gifts) (place : ℕ) (loses_link : Bool) (other : Object)
        → givers_of (with_lost_link gs place loses_link) other ≡ givers_of gs other }
{}
