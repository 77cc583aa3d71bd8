// Laws of the definitions. Each body is empty, and the contract is the law.
ghost use Rattle.std.specs.Prelude.{◌≡◌, ◌↔◌, ℕ, List, length, Bool, Option, Some, None, Contains};
ghost use Rattle.std.specs.Prelude.{true, ◌+◌, ◌<◌, ◌≤◌};
ghost use Rattle.std.specs.FinMap as map;
ghost use Rattle.kern_model.specs.declared.object.Object.{Object};
ghost use Rattle.kern_model.specs.declared.object.Call.{Call};
ghost use Rattle.kern_model.specs.declared.object.Device.{Device};
ghost use Rattle.kern_model.specs.declared.object.DevEvent.{DevEvent};
ghost use Rattle.kern_model.specs.ObjectOrder.{Objects, Has};
ghost use Rattle.kern_model.specs.Kernel.{Devices, map_of, MayHappen, after_event, object_of};
ghost use Rattle.kern_model.specs.Allowed.{AreAllowed};
ghost use Rattle.kern_model.specs.CallOrder.{AreCalls, AreAdmitted, after_calls};
ghost use Rattle.net_rows.specs.declared.rows.Conf.{Conf};
ghost use Rattle.net_rows.specs.declared.rows.NameRow.{NameRow};
ghost use Rattle.net_rows.specs.declared.rows.InterfaceRow.{InterfaceRow};
ghost use Rattle.net_rules.specs.declared.answer.Answer.{Answer};
ghost use Rattle.net_rules.specs.declared.inputs.Inputs.{Inputs};
ghost use Rattle.net_rules.specs.declared.inputs.OpenInterface.{OpenInterface};
ghost use Rattle.net_rules.specs.declared.inputs.OpenRadio.{OpenRadio};
ghost use Rattle.net_rules.specs.declared.event.Event.{Event};
ghost use Rattle.net_rules.specs.declared.event.Event.TheVariants as event;
ghost use Rattle.net_rules.specs.Facts.{Facts};
ghost use Rattle.net_rules.specs.Sound.{IsSound, AreClosedDown, AreClosedUp};
ghost use Rattle.net_rules.specs.Available.{opens_at, available, links_at, link};
ghost use Rattle.net_rules.specs.Used.{serves_at, used, users};
ghost use Rattle.net_rules.specs.Need.{interface_need};
ghost use Rattle.net_rules.specs.Want.{want};
ghost use Rattle.net_rules.specs.Wanted.{IsWanted};
ghost use Rattle.net_rules.specs.Down.{LeadsDown, leads_down};
ghost use Rattle.net_rules.specs.Footprint.{footprint, IsOf};
ghost use Rattle.net_rules.specs.Inputs.{facts_of, open_interface, open_radio};
ghost use Rattle.net_rules.specs.After.{devices_after, after};
ghost use Rattle.net_rules.specs.Numbers.{AreNumbered};
ghost use Rattle.net_rules.specs.Fresh.{IsReached, AreAsked, fresh_start};
ghost use Rattle.net_rules.specs.Moment.{Moment, devices_of, want_of, footprint_named};
ghost use Rattle.net_rules.specs.Refusal.{refusal, moved};
ghost use Rattle.net_rules.specs.Moment.{AreWithin, IsStretch, IsHistory, IsOrderly};

/// Over sound rows eight levels are enough: a name is available, has link and is used as what is
/// below and above it says.
pub fn answers_follow_the_rows()
    ensures available { (facts : Facts) → IsSound facts.conf
        → (name : List ℕ) → available facts name ≡ opens_at facts (available facts) name }
    ensures link { (facts : Facts) → IsSound facts.conf
        → (name : List ℕ) → link facts name ≡ links_at facts (link facts) name }
    ensures used { (facts : Facts) → IsSound facts.conf
        → (name : List ℕ) → used facts name ≡ serves_at facts (used facts) name }
{}

/// Nothing else answers so: what follows the rows among names that have with each one those below
/// it, or those above it, gives there the same answers.
pub fn no_other_answers_follow_the_rows()
    ensures available { (facts : Facts) → IsSound facts.conf → (among : List ℕ → Bool)
        (answer : List ℕ → Bool) → AreClosedDown facts among
        → ((name : List ℕ) → among name ≡ true → answer name ≡ opens_at facts answer name)
        → (name : List ℕ) → among name ≡ true → answer name ≡ available facts name }
    ensures link { (facts : Facts) → IsSound facts.conf → (among : List ℕ → Bool)
        (answer : List ℕ → Bool) → AreClosedDown facts among
        → ((name : List ℕ) → among name ≡ true → answer name ≡ links_at facts answer name)
        → (name : List ℕ) → among name ≡ true → answer name ≡ link facts name }
    ensures used { (facts : Facts) → IsSound facts.conf → (among : List ℕ → Bool)
        (answer : List ℕ → Bool) → AreClosedUp facts among
        → ((name : List ℕ) → among name ≡ true → answer name ≡ serves_at facts answer name)
        → (name : List ℕ) → among name ≡ true → answer name ≡ used facts name }
{}

/// A name is used exactly where it has users.
pub fn used_names_have_users()
    ensures { (facts : Facts) → IsSound facts.conf
        → (name : List ℕ) → (used facts name ≡ true) ↔ (0 < users facts name) }
{}

/// What is wanted, by the kinds of objects.
pub fn objects_are_wanted()
    ensures { (facts : Facts) → IsSound facts.conf
        → (o : Object) → Has (want facts) o ↔ IsWanted facts o }
{}

/// What sound rows want is allowed by the kernel beside the present devices, whatever operator
/// states and answers there are.
pub fn want_is_allowed()
    ensures { (facts : Facts) (devices : Devices) → IsSound facts.conf
        → ((name : List ℕ) → facts.device name ≡ map.get devices name)
        → AreAllowed devices (want facts) }
{}

/// The devices of inputs, as a list, are after an event what those of a kernel are.
pub fn devices_follow_the_kernel()
    ensures { (devices : List (List ℕ × Device)) (what : DevEvent)
        → map_of (devices_after devices what) ≡ after_event (map_of devices) what }
{}

/// What sound inputs want is allowed beside their devices.
pub fn inputs_want_what_is_allowed()
    ensures { (inputs : Inputs) → IsSound inputs.conf
        → AreAllowed (devices_of inputs) (want_of inputs) }
{}

/// What the handler of an interface is asked depends on no answer of a handler of an interface.
/// What that of a radio is asked depends on its row alone, since `radio_need` is given nothing
/// else.
pub fn no_answer_changes_a_need()
    ensures { (facts : Facts) (answer : List ℕ → Option Answer) (row : InterfaceRow)
        → interface_need (record facts { answer = answer }) row ≡ interface_need facts row }
{}

/// Whatever events come and wherever settlings stop, what is held and what is wanted is allowed by
/// the kernel. Each call of a settling is admitted in its turn, and behind all of them the kernel
/// holds exactly what is wanted, which is what a fresh start wants.
pub fn every_history_is_orderly()
    ensures kept { (moment : Moment) → IsHistory moment → IsOrderly moment }
    ensures admitted { (moment : Moment) (calls : List Call) → IsHistory moment
        → AreCalls (devices_of moment.inputs) moment.held (want_of moment.inputs) calls
        → AreAdmitted (devices_of moment.inputs) moment.held calls }
    ensures reached { (moment : Moment) (calls : List Call) → IsHistory moment
        → AreCalls (devices_of moment.inputs) moment.held (want_of moment.inputs) calls
        → after_calls moment.held calls ≡ want_of moment.inputs }
    ensures fresh { (moment : Moment) (calls : List Call) → IsHistory moment
        → AreCalls (devices_of moment.inputs) moment.held (want_of moment.inputs) calls
        → after_calls moment.held calls ≡ want_of (fresh_start moment.inputs) }
{}

/// VLANs lead from a name down to a base exactly where the test of it says so, however long their
/// chain is.
pub fn what_vlans_lead_to_is_tested()
    ensures { (rows : List NameRow) (name base : List ℕ)
        → (leads_down rows name base ≡ true) ↔ LeadsDown rows base name }
{}

/// A device event that is not refused may happen to the kernel. So every event leads from a history
/// to a history, refused or not, as long as loaded rows are sound.
pub fn events_that_are_not_refused_may_come()
    ensures device { (moment : Moment) (what : DevEvent)
        → refusal moment (event.Device what) ≡ None
        → MayHappen (devices_of moment.inputs) moment.held what }
    ensures history { (moment : Moment) (what : Event) → IsHistory moment
        → ((conf : Conf) → what ≡ event.Load conf → IsSound conf)
        → IsHistory (moved moment what) }
{}

/// What a footprint has, by the kinds of objects.
pub fn footprints_are_what_is_below()
    ensures { (facts : Facts) (row : InterfaceRow) (o : Object)
        → Has (footprint facts row) o ↔ (Has (want facts) o × IsOf facts row o) }
{}

/// Where an allowed set of held objects and a wanted one both have the footprint of an interface,
/// no call between them names an object of it. The held ones need not have been wanted as a whole:
/// a settling may have stopped.
pub fn footprint_is_not_touched()
    ensures { (facts : Facts) (devices : Devices) (row : InterfaceRow) (held wanted : Objects)
        → IsSound facts.conf → ((name : List ℕ) → facts.device name ≡ map.get devices name)
        → AreAllowed devices held → AreWithin (footprint facts row) held
        → AreWithin (footprint facts row) wanted → (others : Devices) (calls : List Call)
        → AreCalls others held wanted calls → (call : Call) → Contains calls call
        → Has (footprint facts row) (object_of call) → ⊥ }
{}

/// A footprint that is the same in what two inputs want is named by no call from the one to the
/// other.
pub fn same_footprint_is_not_touched()
    ensures { (before now : Inputs) (name : List ℕ) (devices : Devices) (calls : List Call)
        → IsSound before.conf → footprint_named before name ≡ footprint_named now name
        → AreCalls devices (want_of before) (want_of now) calls → (call : Call)
        → Contains calls call → Has (footprint_named before name) (object_of call) → ⊥ }
{}

/// From a settled moment on, no call of a stretch over which the footprint of an interface stayed
/// names an object of it, whatever events come and wherever settlings stop.
pub fn no_call_names_what_stayed()
    ensures { (moment : Moment) (name : List ℕ) (calls : List Call)
        → IsSound moment.inputs.conf → moment.held ≡ want_of moment.inputs
        → IsStretch name (footprint_named moment.inputs name) moment calls → (call : Call)
        → Contains calls call → Has (footprint_named moment.inputs name) (object_of call) → ⊥ }
{}

/// Whatever events come, behind each one every interface and every radio has an open request
/// exactly where it has a need, and that request is its need.
pub fn requests_are_the_needs()
    ensures { (inputs : Inputs) → IsReached inputs → AreAsked inputs }
{}

/// Each open request has a number of its own below the next one, which never falls: no number is
/// given twice. An event raises it by one at most for each interface and each radio of the rows.
pub fn no_number_is_given_twice()
    ensures numbered { (inputs : Inputs) → IsReached inputs → AreNumbered inputs }
    ensures rises { (inputs : Inputs) (event : Event) → inputs.next ≤ (after inputs event).next }
    ensures few { (inputs : Inputs) (event : Event) → (after inputs event).next
        ≤ inputs.next + (length (after inputs event).conf.interfaces
        + length (after inputs event).conf.radios) }
{}

/// An answer to a number that is not that of the open request changes nothing.
pub fn stale_answers_change_nothing()
    ensures interface { (inputs : Inputs) → IsReached inputs → (interface : List ℕ) (number : ℕ)
        (answer : Answer) → ((o : OpenInterface)
        → open_interface inputs.interfaces interface ≡ Some o → o.number ≡ number → ⊥)
        → after inputs (event.Answer interface number answer) ≡ inputs }
    ensures radio { (inputs : Inputs) → IsReached inputs → (radio : List ℕ) (number : ℕ)
        (ports : List (Option (List ℕ))) → ((o : OpenRadio)
        → open_radio inputs.radios radio ≡ Some o → o.number ≡ number → ⊥)
        → after inputs (event.Radio radio number ports) ≡ inputs }
{}

/// A fresh start comes to the same facts, and so wants the same: from nothing each present device
/// comes, the rows are loaded, each last operator state is given, then the latest answers of
/// radios, and then those of interfaces, to the requests that are open by then.
pub fn a_fresh_start_wants_the_same()
    ensures facts { (inputs : Inputs) → IsReached inputs
        → facts_of (fresh_start inputs) ≡ facts_of inputs }
    ensures want { (inputs : Inputs) → IsReached inputs
        → want_of (fresh_start inputs) ≡ want_of inputs }
{}
