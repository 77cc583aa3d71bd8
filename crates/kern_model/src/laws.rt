// Laws of the definitions that the contracts cite. Each body is empty, and the contract is the law.
ghost use Rattle.std.specs.Prelude.{◌≡◌, ◌<◌, ◌^◌, ◌⊎◌, ◌++◌, ◌+◌, ◌↔◌, ℕ, List, Option, true};
ghost use Rattle.std.specs.FinSet as set;
ghost use Rattle.kern_model.specs.declared.object.Mac.{Mac};
ghost use Rattle.kern_model.specs.declared.object.LinkKind.{LinkKind};
ghost use Rattle.kern_model.specs.declared.object.LinkKind.TheVariants.{Vlan};
ghost use Rattle.kern_model.specs.declared.object.Object.{Object};
ghost use Rattle.kern_model.specs.declared.object.Object.TheVariants.{Link};
ghost use Rattle.kern_model.specs.declared.object.Call.{Call};
ghost use Rattle.kern_model.specs.declared.object.DevEvent.{DevEvent};
ghost use Rattle.kern_model.specs.ObjectOrder.{Objects, Has};
ghost use Rattle.kern_model.specs.Standing.{is_over, IsOver, height};
ghost use Rattle.kern_model.specs.Kernel.{Devices, after_call, MayHappen, after_event};
ghost use Rattle.kern_model.specs.Kernel.{objects_after_event};
ghost use Rattle.kern_model.specs.Admission.{Admits};
ghost use Rattle.kern_model.specs.Allowed.{AreAllowed};
ghost use Rattle.kern_model.specs.Line.{put_line, take_line, IsPrintable, HaveOneVlan, HaveOneName};
ghost use Rattle.kern_model.specs.CallOrder.{AreCalls, AreAdmitted, after_calls};

/// Objects that are put by one line are one object, or are both VLANs of bridges, of one port and
/// one id. Objects that are taken by one line are one, or are of one kind, which is not that of
/// names that are up, addresses or routes, and of one name; VLANs of bridges of one port and one
/// id. In an allowed set they are one.
pub fn distinct_lines()
    ensures puts { (a b : Object) → IsPrintable a → IsPrintable b → put_line a ≡ put_line b
        → (a ≡ b) ⊎ HaveOneVlan a b }
    ensures held_puts { (devices : Devices) (objects : Objects) → AreAllowed devices objects
        → (a b : Object) → Has objects a → Has objects b → IsPrintable a → IsPrintable b
        → put_line a ≡ put_line b → a ≡ b }
    ensures takes { (a b : Object) (m n : ℕ) (x y : Mac) → IsPrintable a → IsPrintable b
        → m < 2 ^ 32 → n < 2 ^ 32 → take_line a m x ≡ take_line b n y → (a ≡ b) ⊎ HaveOneName a b }
    ensures held { (devices : Devices) (objects : Objects) → AreAllowed devices objects
        → (a b : Object) (m n : ℕ) (x y : Mac) → Has objects a → Has objects b → IsPrintable a
        → IsPrintable b → m < 2 ^ 32 → n < 2 ^ 32 → take_line a m x ≡ take_line b n y → a ≡ b }
{}

/// There is one list of the calls between what is held and what is wanted.
pub fn one_list_of_calls()
    ensures { (devices : Devices) (held wanted : Objects) (xs ys : List Call)
        → AreCalls devices held wanted xs → AreCalls devices held wanted ys → xs ≡ ys }
{}

/// Between two sets that the rules of the kernel allow, each call is admitted in its turn, and
/// after all of them the kernel holds exactly what is wanted.
pub fn calls_lead_on()
    ensures admitted { (devices : Devices) (held wanted : Objects) (calls : List Call)
        → AreAllowed devices held → AreAllowed devices wanted → AreCalls devices held wanted calls
        → AreAdmitted devices held calls }
    ensures reached { (devices : Devices) (held wanted : Objects) (calls : List Call)
        → AreAllowed devices held → AreAllowed devices wanted → AreCalls devices held wanted calls
        → after_calls held calls ≡ wanted }
{}

/// A kernel without objects is allowed.
pub fn nothing_is_allowed()
    ensures { (devices : Devices) → AreAllowed devices set.empty }
{}

/// What the kernel admits, one call or one after the other, leads from an allowed set to an allowed
/// one.
pub fn admitted_calls_keep_allowed()
    ensures one { (devices : Devices) (objects : Objects) (call : Call) → AreAllowed devices objects
        → Admits devices objects call → AreAllowed devices (after_call objects call) }
    ensures all { (devices : Devices) (objects : Objects) (calls : List Call)
        → AreAllowed devices objects → AreAdmitted devices objects calls
        → AreAllowed devices (after_calls objects calls) }
{}

/// What may happen to a device leads from an allowed set to an allowed one.
pub fn events_keep_allowed()
    ensures { (devices : Devices) (objects : Objects) (event : DevEvent)
        → AreAllowed devices objects → MayHappen devices objects event
        → AreAllowed (after_event devices event) (objects_after_event objects event) }
{}

/// A name is over another exactly where VLANs lead up from the one to the other.
pub fn over_is_by_vlans()
    ensures { (objects : Objects) (base name : List ℕ)
        → (is_over objects base name ≡ true) ↔ IsOver objects base name }
{}

/// In an allowed set a VLAN is one higher than the name under it, and every name that is no VLAN
/// has the height 0.
pub fn vlans_are_one_higher()
    ensures vlan { (devices : Devices) (objects : Objects) → AreAllowed devices objects
        → (name lower : List ℕ) (id : ℕ) (mac : Option Mac)
        → Has objects (Link name (Vlan lower id mac))
        → height objects name ≡ height objects lower + 1 }
    ensures other { (devices : Devices) (objects : Objects) → AreAllowed devices objects
        → (name : List ℕ)
        → ((lower : List ℕ) (id : ℕ) (mac : Option Mac)
        → Has objects (Link name (Vlan lower id mac)) → ⊥) → height objects name ≡ 0 }
{}
