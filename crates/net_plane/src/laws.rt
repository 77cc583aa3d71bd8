// Laws of histories. Each body is empty, and the contract is the law.
ghost use Rattle.std.specs.Prelude.{◌≡◌, [], ℕ, List, Contains};
ghost use Rattle.kern_model.specs.declared.object.Call.{Call};
ghost use Rattle.kern_model.specs.ObjectOrder.{set_of, Has};
ghost use Rattle.kern_model.specs.Kernel.{object_of};
ghost use Rattle.net_rules.specs.declared.event.Event.{Event};
ghost use Rattle.net_rules.specs.Fresh.{fresh_start};
ghost use Rattle.net_rules.specs.Moment.{want_of, footprint_named};
ghost use Rattle.net_plane.specs.Network.{Network, calls_of};
ghost use Rattle.net_plane.specs.History.{HasBecome, inputs_after, Stays};

/// Whatever events a plane took, in whatever order, and wherever settlings stood and stopped
/// between: its inputs are those after these events, and where no call is left the kernel holds
/// exactly what they want, which is what a fresh start wants.
pub fn settled_planes_are_as_fresh_ones()
    ensures inputs { (events : List Event) (now : Network) → HasBecome events now
        → now.inputs ≡ inputs_after events }
    ensures wanted { (events : List Event) (now : Network) → HasBecome events now
        → calls_of now ≡ [] → set_of now.held ≡ want_of (inputs_after events) }
    ensures fresh { (events : List Event) (now : Network) → HasBecome events now
        → calls_of now ≡ [] → set_of now.held ≡ want_of (fresh_start (inputs_after events)) }
{}

/// From a settled plane on, no call that was made names an object of a footprint that stayed,
/// whatever events come and wherever settlings stop.
pub fn no_call_names_what_stayed()
    ensures { (events : List Event) (before : Network) (name : List ℕ) (calls : List Call)
        → HasBecome events before → calls_of before ≡ []
        → Stays name (footprint_named before.inputs name) before calls → (call : Call)
        → Contains calls call → Has (footprint_named before.inputs name) (object_of call) → ⊥ }
{}
