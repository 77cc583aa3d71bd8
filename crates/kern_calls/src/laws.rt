// Laws of the calls between two sets. Each body is empty, and the contract is the law.
ghost use Rattle.std.specs.Prelude.{◌≡◌, ◌≤◌, ◌<◌, ◌↔◌, ◌++◌, ℕ, List, Option, Contains, length};
ghost use Rattle.std.specs.Prelude.{filter, true, false};
ghost use Rattle.std.specs.FinSet as set;
ghost use Rattle.kern_model.specs.declared.object.Mac.{Mac};
ghost use Rattle.kern_model.specs.declared.object.LinkKind.TheVariants.{Vlan};
ghost use Rattle.kern_model.specs.declared.object.Object.{Object};
ghost use Rattle.kern_model.specs.declared.object.Object.TheVariants.{Link};
ghost use Rattle.kern_model.specs.declared.object.Call.{Call};
ghost use Rattle.kern_model.specs.ObjectOrder.{Objects, Has};
ghost use Rattle.kern_model.specs.Standing.{is_over};
ghost use Rattle.kern_model.specs.Kernel.{Devices, object_of};
ghost use Rattle.kern_model.specs.Allowed.{AreAllowed};
ghost use Rattle.kern_model.specs.Touched.{loses_link, is_touched};
ghost use Rattle.kern_model.specs.CallOrder.{AreCalls, AreAdmitted, after_calls};
ghost use Rattle.kern_calls.specs.Calls.{calls};
ghost use Rattle.kern_calls.specs.Kept.{IsOverTaken, IsOffTaken, IsWholePart};
ghost use Rattle.kern_calls.specs.Counted.{takes, puts};
ghost use Rattle.kern_calls.specs.Lower.{lower_part, is_lower_call};
ghost use Rattle.kern_calls.specs.Due.{due_count};

/// The listed calls are the calls between the sets, and no other list is.
pub fn calls_are_the_calls()
    ensures are { (devices : Devices) (held wanted : Objects)
        → AreCalls devices held wanted (calls devices held wanted) }
    ensures alone { (devices : Devices) (held wanted : Objects) (others : List Call)
        → AreCalls devices held wanted others → others ≡ calls devices held wanted }
{}

/// After any front of the calls, the others are the calls from what is then held to what is wanted.
pub fn calls_go_on()
    ensures { (devices : Devices) (held wanted : Objects) (made rest : List Call)
        → AreAllowed devices held → AreAllowed devices wanted
        → AreCalls devices held wanted (made ++ rest)
        → AreCalls devices (after_calls held made) wanted rest }
{}

/// Calls are admitted each in its turn exactly where a front of them is, and then the others are.
pub fn fronts_are_admitted()
    ensures { (devices : Devices) (objects : Objects) (front rest : List Call)
        → AreAdmitted devices objects (front ++ rest)
        ↔ (AreAdmitted devices objects front
        × AreAdmitted devices (after_calls objects front) rest) }
{}

/// The names that fall are those of the links that are taken, and the names over these.
pub fn loses_link_with_taken_links()
    ensures { (held wanted : Objects) (name : List ℕ)
        → (loses_link held wanted name ≡ true) ↔ IsOverTaken held wanted name }
{}

/// An object of both sets at no name that loses its link is in no call. So is each object of a set
/// that both contain, and that has with each object the held links that it stands on.
pub fn what_stays_is_untouched()
    ensures one { (devices : Devices) (held wanted : Objects) (calls : List Call) (call : Call)
        → Has held (object_of call) → Has wanted (object_of call)
        → IsOffTaken held wanted (object_of call)
        → AreCalls devices held wanted calls → Contains calls call → ⊥ }
    ensures part { (devices : Devices) (held wanted part : Objects) (calls : List Call)
        (call : Call) → IsWholePart held wanted part → Has part (object_of call)
        → AreCalls devices held wanted calls → Contains calls call → ⊥ }
{}

/// An object has one take and one put at most, and none where it is not touched.
pub fn two_calls_at_most()
    ensures takes { (devices : Devices) (held wanted : Objects) (calls : List Call) (o : Object)
        → AreCalls devices held wanted calls → length (filter (takes o) calls) ≤ 1 }
    ensures puts { (devices : Devices) (held wanted : Objects) (calls : List Call) (o : Object)
        → AreCalls devices held wanted calls → length (filter (puts o) calls) ≤ 1 }
    ensures none { (devices : Devices) (held wanted : Objects) (calls : List Call) (call : Call)
        → AreCalls devices held wanted calls → Contains calls call
        → is_touched held wanted (object_of call) ≡ true }
{}

/// The calls without those of addresses and routes are the calls between the sets without them.
pub fn lower_calls_are_calls()
    ensures { (devices : Devices) (held wanted : Objects) (calls : List Call)
        → AreCalls devices held wanted calls
        → AreCalls devices (lower_part held) (lower_part wanted) (filter is_lower_call calls) }
{}

/// Nothing is due exactly where what is held is what is wanted.
pub fn nothing_is_due()
    ensures { (held wanted : Objects) → (due_count held wanted ≡ 0) ↔ (held ≡ wanted) }
{}

/// Where a number rises from the lower name of each VLAN to its own, no VLAN is over itself.
pub fn levels_ground_vlans()
    ensures { (objects : Objects) (level : List ℕ → ℕ)
        → ((name lower : List ℕ) (id : ℕ) (mac : Option Mac)
        → Has objects (Link name (Vlan lower id mac)) → level lower < level name)
        → (name lower : List ℕ) (id : ℕ) (mac : Option Mac)
        → Has objects (Link name (Vlan lower id mac)) → is_over objects name lower ≡ true → ⊥ }
{}

/// From nothing the calls are the same beside any devices.
pub fn calls_from_nothing_are_alike()
    ensures { (devices others : Devices) (wanted : Objects) (calls : List Call)
        → AreCalls devices set.empty wanted calls → AreCalls others set.empty wanted calls }
{}
