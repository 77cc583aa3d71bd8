// The body is empty, and the contract is the law.
ghost use Rattle.std.specs.Prelude.{◌≡◌, ℕ, List, [], Contains};
ghost use Rattle.kern_model.specs.declared.object.Call.{Call};
ghost use Rattle.kern_model.specs.ObjectOrder.{Has};
ghost use Rattle.kern_model.specs.Kernel.{object_of};
ghost use Rattle.net_rules.specs.declared.event.Event.{Event};
ghost use Rattle.net_rules.specs.Moment.{footprint_named};
ghost use Rattle.net_plane.specs.Network.{Network, calls_of};
ghost use Rattle.net_plane.specs.History.{HasBecome};
ghost use Rattle.plane_laws.specs.Stretch.{StaysUntil};

/// From a settled plane on, no call that is left names an object of a footprint that stayed until
/// then, whatever events come and wherever settlings stop. So neither does the call at which a
/// settling stops, which is the first of those that are left.
pub fn no_call_that_is_left_names_what_stayed()
    ensures { (events : List Event) (before now : Network) (name : List ℕ)
        → HasBecome events before → calls_of before ≡ []
        → StaysUntil name (footprint_named before.inputs name) now before → (call : Call)
        → Contains (calls_of now) call → Has (footprint_named before.inputs name) (object_of call)
        → ⊥ }
{}
