// Laws of the parts of the calls. Each body is empty, and the contract is the law.
ghost use Rattle.std.specs.Prelude.{◌≡◌, ◌↔◌, ◌++◌, ◌+◌, ◌||◌, ℕ, List, filter, slice_get, Bool};
ghost use Rattle.std.specs.Prelude.{true, false, not};
ghost use Rattle.std.specs.List.{find};
ghost use Rattle.std.specs.Option.{option_or};
ghost use Rattle.std.specs.FinSet as set;
ghost use Rattle.kern_model.specs.declared.object.Mac.{Mac};
ghost use Rattle.kern_model.specs.declared.object.Object.{Object};
ghost use Rattle.kern_model.specs.declared.object.Object.TheVariants.{Up};
ghost use Rattle.kern_model.specs.declared.object.Call.{Call};
ghost use Rattle.kern_model.specs.declared.object.Call.TheVariants.{Put, Take};
ghost use Rattle.kern_model.specs.ObjectOrder.{Objects, Has, set_of};
ghost use Rattle.kern_model.specs.Standing.{gone};
ghost use Rattle.kern_model.specs.Kernel.{Devices, name_of, object_of, after_call};
ghost use Rattle.kern_model.specs.Allowed.{AreAllowed};
ghost use Rattle.kern_model.specs.Touched.{loses_link, is_taken, is_put};
ghost use Rattle.kern_model.specs.CallOrder.{call_cmp};
ghost use Rattle.kern_calls.specs.Calls.{calls};
ghost use Rattle.kern_calls.specs.Lower.{is_lower, lower_part, is_lower_call};
ghost use Rattle.kern_calls.specs.Due.{due_count};
ghost use Rattle.kern_calls.specs.Upper.{is_upper, upper_part, is_upper_take, is_upper_put};

/// Calls come in three parts: takes of addresses and routes, the calls of all other objects, puts
/// of addresses and routes. An address or a route is in a call where only one side has it, or where
/// its device loses its link, as the sides without addresses and routes tell. Among themselves
/// their calls stand in one order, whatever the sides.
pub fn calls_come_in_parts()
    ensures parts { (devices : Devices) (held wanted : Objects) → calls devices held wanted
        ≡ filter is_upper_take (calls devices held wanted)
        ++ (calls devices (lower_part held) (lower_part wanted)
        ++ filter is_upper_put (calls devices held wanted)) }
    ensures first { (devices : Devices) (held wanted : Objects)
        → slice_get (calls devices held wanted) 0
        ≡ option_or (find is_upper_take (calls devices held wanted))
        (option_or (slice_get (calls devices (lower_part held) (lower_part wanted)) 0)
        (find is_upper_put (calls devices held wanted))) }
    ensures take { (held wanted : Objects) (o : Object) → is_upper o ≡ true → Has held o
        → is_taken held wanted o
        ≡ (not (set.contains wanted o) || loses_link held wanted (name_of o)) }
    ensures put { (held wanted : Objects) (o : Object) → is_upper o ≡ true → Has wanted o
        → is_put held wanted o ≡ (not (set.contains held o) || loses_link held wanted (name_of o)) }
    ensures loses_link { (held wanted : Objects) (name : List ℕ)
        → loses_link (lower_part held) (lower_part wanted) name ≡ loses_link held wanted name }
    ensures order { (held wanted others more : Objects) (a b : Call)
        → is_upper (object_of a) ≡ true → is_upper (object_of b) ≡ true
        → call_cmp held wanted a b ≡ call_cmp others more a b }
{}

/// Takes come before puts, whichever test tells them apart.
pub fn takes_come_before_puts()
    ensures parts { (test : Call → Bool)
        → ((o : Object) (mtu : ℕ) (mac : Mac) → test (Take o mtu mac) ≡ true)
        → ((o : Object) → test (Put o) ≡ false)
        → (devices : Devices) (held wanted : Objects) → calls devices held wanted
        ≡ filter test (calls devices held wanted)
        ++ filter (λ call. not (test call)) (calls devices held wanted) }
    ensures first { (test : Call → Bool)
        → ((o : Object) (mtu : ℕ) (mac : Mac) → test (Take o mtu mac) ≡ true)
        → ((o : Object) → test (Put o) ≡ false)
        → (devices : Devices) (held wanted : Objects) → slice_get (calls devices held wanted) 0
        ≡ option_or (find test (calls devices held wanted))
        (find (λ call. not (test call)) (calls devices held wanted)) }
{}

/// A call does to the part of its object what it does to the set, and leaves the other part. Both
/// parts make the set, and two sets, one of addresses and routes and one of other objects, are the
/// parts of their union. A device that goes takes from the lower part what it takes from the set,
/// and an address or a route of an allowed set goes with its device's being up. How much is due is
/// the sum of what is due in the parts.
pub fn parts_follow_calls()
    ensures lower { (held : Objects) (call : Call) → is_lower_call call ≡ true
        → (lower_part (after_call held call) ≡ after_call (lower_part held) call)
        × (upper_part (after_call held call) ≡ upper_part held) }
    ensures upper { (held : Objects) (call : Call) → is_lower_call call ≡ false
        → (lower_part (after_call held call) ≡ lower_part held)
        × (upper_part (after_call held call) ≡ after_call (upper_part held) call) }
    ensures whole { (held : Objects) → set.union (lower_part held) (upper_part held) ≡ held }
    ensures joined { (lower upper : Objects)
        → ((o : Object) → Has lower o → is_lower o ≡ true)
        → ((o : Object) → Has upper o → is_upper o ≡ true)
        → (lower_part (set.union lower upper) ≡ lower)
        × (upper_part (set.union lower upper) ≡ upper) }
    ensures gone { (held : Objects) (name : List ℕ)
        → lower_part (gone held name) ≡ gone (lower_part held) name }
    ensures with_up { (devices : Devices) (held : Objects) (name : List ℕ) (o : Object)
        → AreAllowed devices held → Has held o → is_upper o ≡ true
        → Has (gone held name) o ↔ Has (gone held name) (Up (name_of o)) }
    ensures due { (held wanted : Objects) → due_count held wanted
        ≡ due_count (lower_part held) (lower_part wanted)
        + due_count (upper_part held) (upper_part wanted) }
{}

/// The set of the items of a set is that set.
pub fn sets_are_those_of_their_items()
    ensures { (objects : Objects) → set_of (set.items objects) ≡ objects }
{}
