// Laws of names that no row reaches. Each body is empty, and the contract is the law.
ghost use Rattle.std.specs.Prelude.{◌≡◌, [], ℕ, List, Contains, false};
ghost use Rattle.kern_model.specs.declared.object.DevEvent.{DevEvent};
ghost use Rattle.net_rules.specs.declared.inputs.Inputs.{Inputs};
ghost use Rattle.net_rules.specs.declared.event.Event.TheVariants as event;
ghost use Rattle.net_rules.specs.After.{devices_after, after};
ghost use Rattle.net_rules.specs.Inputs.{facts_of};
ghost use Rattle.net_rules.specs.Moment.{want_of, Moment, IsHistory};
ghost use Rattle.net_rules.specs.Notices.{notices};
ghost use Rattle.net_rules.specs.Want.{known_names};
ghost use Rattle.net_rules.specs.Reach.{name_of, reached_names, is_reached};

/// The names that can be used are among those that rows reach.
pub fn known_names_are_reached()
    ensures { (inputs : Inputs) (name : List ℕ) → Contains (known_names (facts_of inputs)) name
        → Contains (reached_names inputs) name }
{}

/// What happens to a device whose name no row reaches changes the present devices alone: what is
/// wanted stays, and there is nothing to tell.
pub fn devices_apart_change_nothing_else()
    ensures inputs { (moment : Moment) (what : DevEvent) → IsHistory moment
        → is_reached moment.inputs (name_of what) ≡ false
        → after moment.inputs (event.Device what)
        ≡ record moment.inputs { devices = devices_after moment.inputs.devices what } }
    ensures wanted { (moment : Moment) (what : DevEvent) → IsHistory moment
        → is_reached moment.inputs (name_of what) ≡ false
        → want_of (after moment.inputs (event.Device what)) ≡ want_of moment.inputs }
    ensures told { (moment : Moment) (what : DevEvent) → IsHistory moment
        → is_reached moment.inputs (name_of what) ≡ false
        → notices moment.inputs (event.Device what) ≡ [] }
{}
