//! A law of the objects that are taken and put first.
ghost use Rattle.std.specs.Prelude.{◌≡◌, Bool, Option, IfSome, IfNone, true, not};
ghost use Rattle.std.specs.List.{find};
ghost use Rattle.std.specs.Option.{option_map};
ghost use Rattle.kern_model.specs.declared.object.Object.{Object};
ghost use Rattle.kern_model.specs.declared.object.Call.{Call};
ghost use Rattle.kern_model.specs.declared.object.Call.TheVariants.{Put};
ghost use Rattle.kern_model.specs.ObjectOrder.{Objects};
ghost use Rattle.kern_model.specs.Kernel.{Devices};
ghost use Rattle.kern_model.specs.Touched.{is_taken, is_put};
ghost use Rattle.kern_calls.specs.Calls.{calls, own_take};
ghost use Rattle.graph_objects.specs.declared.turn.Turn.TheVariants.{Takes, Puts};
ghost use Rattle.graph_objects.specs.Turns.{IsFirst, TellsTakes};

/// What `first_take` and `first_put` find is the object of the first take and of the first put in
/// the list of the calls, and nothing where the list has none.
pub fn first_calls_are_found()
    ensures take { (test : Call → Bool) → TellsTakes test
        → (devices : Devices) (held wanted : Objects) (found : Option Object)
        → IfSome found (IsFirst Takes held wanted)
        → IfNone found ((o : Object) → is_taken held wanted o ≡ true → ⊥)
        → find test (calls devices held wanted) ≡ option_map (own_take devices) found }
    ensures put { (test : Call → Bool) → TellsTakes test
        → (devices : Devices) (held wanted : Objects) (found : Option Object)
        → IfSome found (IsFirst Puts held wanted)
        → IfNone found ((o : Object) → is_put held wanted o ≡ true → ⊥)
        → find (λ call. not (test call)) (calls devices held wanted) ≡ option_map Put found }
{}
