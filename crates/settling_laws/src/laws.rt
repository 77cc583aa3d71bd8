// Laws of the definitions. Each body is empty, and the contract is the law.
ghost use Rattle.std.specs.Prelude.{◌≡◌, ◌≤◌, ◌++◌, ℕ, List, Contains, map, filter, length, None};
ghost use Rattle.std.specs.Prelude.{Some, Bool, true};
ghost use Rattle.kern_model.specs.declared.object.Device.{Device};
ghost use Rattle.kern_model.specs.declared.object.Mac.{Mac};
ghost use Rattle.kern_model.specs.declared.object.Object.{Object};
ghost use Rattle.kern_model.specs.declared.object.Call.{Call};
ghost use Rattle.kern_model.specs.declared.object.DevEvent.TheVariants as device;
ghost use Rattle.kern_model.specs.CallOrder.{after_calls};
ghost use Rattle.kern_calls.specs.Calls.{calls};
ghost use Rattle.kern_calls.specs.Lower.{lower_part};
ghost use Rattle.net_rows.specs.declared.rows.Conf.{Conf};
ghost use Rattle.net_rules.specs.declared.inputs.Inputs.{Inputs};
ghost use Rattle.net_rules.specs.declared.event.Event.TheVariants as event;
ghost use Rattle.net_rules.specs.Facts.{Facts};
ghost use Rattle.net_rules.specs.Rows.{names_of, interfaces_of};
ghost use Rattle.net_rules.specs.RadioPorts.{radio_ports};
ghost use Rattle.net_rules.specs.Used.{uses};
ghost use Rattle.net_rules.specs.Sound.{IsSound};
ghost use Rattle.net_rules.specs.Inputs.{facts_of, device_in};
ghost use Rattle.net_rules.specs.After.{changed};
ghost use Rattle.net_rules.specs.Moment.{devices_of, want_of, IsHistory};
ghost use Rattle.graph_rules.specs.declared.ids.RadioPort.{RadioPort};
ghost use Rattle.graph_rules.specs.State.{Named, Known, State, names_in, place_among, claims_among};
ghost use Rattle.graph_rules.specs.State.{claims_in};
ghost use Rattle.graph_rules.specs.Answers.{port_of};
ghost use Rattle.graph_rules.specs.After.{present_after, absent_after, carrier_after};
ghost use Rattle.graph_rules.specs.After.{claimed_after, added_after, known_of};
ghost use Rattle.graph_rules.specs.Wanted.{want_in};
ghost use Rattle.graph_rules.specs.Agreeing.{Agrees};
ghost use Rattle.graph_laws.specs.Below.{AgreesBelow};
ghost use Rattle.graph_laws.specs.Knowing.{KnowsRows};
ghost use Rattle.graph_laws.specs.Links.{HoldsLinksOfRows};
ghost use Rattle.graph_counts.specs.Sound as counts;
ghost use Rattle.given_objects.specs.Gifts.{Gifts, AreGifts};
ghost use Rattle.given_objects.specs.Changes.{given_once_more, given_once_less};
ghost use Rattle.net_rules.specs.declared.state.InterfaceState.{InterfaceState};
ghost use Rattle.net_rules.specs.Claims.{claims_of};
ghost use Rattle.net_rules.specs.States.{AreStates};
ghost use Rattle.net_gifts.specs.Giving.{HasGivers};
ghost use Rattle.graph_settle.specs.SettlingState.{SettlingState, held_of, wanted_of, calls_of};
ghost use Rattle.graph_settle.specs.SettlingState.{IsReady, IsAlike};
ghost use Rattle.graph_settle.specs.SettlingState as settling_state;
ghost use Rattle.graph_settle.specs.Leaving.{all_looked_at, left_gifts};
ghost use Rattle.settling_laws.specs.Beside.{IsSettlingStateOf, HoldsLower, AreQuiet};

/// A graph and gifts beside inputs with sound rows want what the inputs want, and have their
/// devices. So the calls are those from what they hold to what the inputs want.
pub fn settling_states_want_what_inputs_want()
    ensures wants { (inputs : Inputs) (c : SettlingState) → IsSound inputs.conf
        → IsSettlingStateOf inputs c
        → AreGifts c.gifts → wanted_of c ≡ want_of inputs }
    ensures devices { (inputs : Inputs) (c : SettlingState) → IsSettlingStateOf inputs c
        → settling_state.devices_of c ≡ devices_of inputs }
    ensures calls { (inputs : Inputs) (c : SettlingState) → IsSound inputs.conf
        → IsSettlingStateOf inputs c
        → AreGifts c.gifts
        → calls_of c ≡ calls (devices_of inputs) (held_of c) (want_of inputs) }
{}

/// The graph knows the names of the rows and of the present devices. It wants and holds what all
/// want and hold, without addresses and routes.
pub fn graphs_of_settling_states_are_of_inputs()
    ensures rows { (inputs : Inputs) (c : SettlingState) → IsSettlingStateOf inputs c
        → (name : List ℕ)
        → Contains (names_of inputs.conf) name → Contains (names_in c.graph.known) name }
    ensures devices { (inputs : Inputs) (c : SettlingState) → IsSettlingStateOf inputs c
        → (name : List ℕ)
        (d : Device) → device_in inputs.devices name ≡ Some d
        → Contains (names_in c.graph.known) name }
    ensures wants { (inputs : Inputs) (c : SettlingState) → IsSettlingStateOf inputs c
        → IsSound inputs.conf
        → want_in c.graph.known ≡ lower_part (want_of inputs) }
    ensures holds { (c : SettlingState) → AreGifts c.gifts → HoldsLower c.graph
        → c.graph.held ≡ lower_part (held_of c) }
{}

/// A sound graph that has the devices of inputs, and gifts, are beside these inputs where claims
/// and givers are counted over what interfaces are.
pub fn counted_settling_states_are_of_inputs()
    ensures { (inputs : Inputs) (states : List InterfaceState) (c : SettlingState)
        → counts.IsSound c.graph.known → AgreesBelow (facts_of inputs) c.graph.known
        → AreStates (facts_of inputs) inputs.conf.interfaces states
        → ((name : List ℕ) → claims_in c.graph.known name ≡ claims_of states name)
        → HasGivers (facts_of inputs) inputs.conf.interfaces states c.gifts
        → IsSettlingStateOf inputs c }
{}

/// Where a history led to the inputs and to what is held, they are ready to be settled: once each
/// gift was told whether its name loses its link, and where links of the rows alone are held and no
/// gift that is held tells that its name loses its link.
pub fn settling_states_of_histories_are_ready()
    ensures looked { (inputs : Inputs) (c : SettlingState) (before : Gifts)
        → IsHistory (record { inputs = inputs; held = held_of c }) → IsSettlingStateOf inputs c
        → AreGifts c.gifts → HoldsLower c.graph → c.may_lose_link ≡ true
        → c.gifts ≡ all_looked_at c.graph before → IsReady c }
    ensures quiet { (inputs : Inputs) (c : SettlingState)
        → IsHistory (record { inputs = inputs; held = held_of c }) → IsSettlingStateOf inputs c
        → AreGifts c.gifts → HoldsLower c.graph → HoldsLinksOfRows c.graph → AreQuiet c.gifts
        → IsReady c }
{}

/// A settling that made some of the calls leaves them beside the same inputs, and a history leads
/// to what is held then.
pub fn settlings_lead_settling_states_on()
    ensures beside { (inputs : Inputs) (before now : SettlingState)
        → IsSettlingStateOf inputs before
        → IsAlike before now → IsSettlingStateOf inputs now }
    ensures history { (inputs : Inputs) (before now : SettlingState) (made : List Call)
        → IsHistory (record { inputs = inputs; held = held_of before })
        → IsSettlingStateOf inputs before → AreGifts before.gifts
        → calls_of before ≡ made ++ calls_of now
        → held_of now ≡ after_calls (held_of before) made
        → IsHistory (record { inputs = inputs; held = held_of now }) }
{}

/// Gifts that are held and tell that no name loses its link stay so, however often they are given,
/// and where some go with a device.
pub fn gifts_stay_quiet()
    ensures more { (gs : Gifts) (o : Object) → AreQuiet gs → AreQuiet (given_once_more gs o) }
    ensures less { (gs : Gifts) (o : Object) → AreQuiet gs → AreQuiet (given_once_less gs o) }
    ensures left { (s : State) (gs : Gifts) → AreQuiet gs → AreQuiet (left_gifts s gs) }
{}

/// A further plain name changes neither what inputs and what is held are beside, nor what is ready.
pub fn further_names_change_nothing()
    ensures beside { (inputs : Inputs) (c : SettlingState) (name : List ℕ) → IsSound inputs.conf
        → IsSettlingStateOf inputs c → place_among c.graph.known.names name ≡ None
        → IsSettlingStateOf inputs (record c { graph = added_after c.graph name }) }
    ensures ready { (inputs : Inputs) (c : SettlingState) (name : List ℕ) → IsSound inputs.conf
        → IsSettlingStateOf inputs c → place_among c.graph.known.names name ≡ None
        → IsReady c → IsReady (record c { graph = added_after c.graph name }) }
    ensures below { (facts : Facts) (s : State) (name : List ℕ) → AgreesBelow facts s.known
        → AgreesBelow facts (added_after s name).known }
    ensures claims { (s : State) (name q : List ℕ)
        → claims_in (added_after s name).known q ≡ claims_in s.known q }
    ensures names { (s : State) (name q : List ℕ) → Contains (names_in s.known) q
        → Contains (names_in (added_after s name).known) q }
{}

/// A graph follows what happens to a device whose name it knows. Its names stay, and so does what
/// it knows of rows and radios.
pub fn devices_lead_graphs_on()
    ensures comes { (inputs : Inputs) (s : State) (name : List ℕ) (id : ℕ) (carrier : Bool)
        (mtu : ℕ) (mac : Mac) → AgreesBelow (facts_of inputs) s.known
        → place_among s.known.names name ≡ Some id
        → AgreesBelow (facts_of (changed inputs (event.Device (device.Add name carrier mtu mac))))
        (present_after s id (record { carrier = carrier; mtu = mtu; mac = mac })).known }
    ensures leaves { (inputs : Inputs) (s : State) (name : List ℕ) (id : ℕ)
        → AgreesBelow (facts_of inputs) s.known → place_among s.known.names name ≡ Some id
        → AgreesBelow (facts_of (changed inputs (event.Device (device.Remove name))))
        (absent_after s id).known }
    ensures carrier { (inputs : Inputs) (s : State) (name : List ℕ) (id : ℕ) (on : Bool)
        → AgreesBelow (facts_of inputs) s.known → place_among s.known.names name ≡ Some id
        → AgreesBelow (facts_of (changed inputs (event.Device (device.Carrier name on))))
        (carrier_after s id on).known }
    ensures claims { (facts : Facts) (s : State) (id claims : ℕ) → AgreesBelow facts s.known
        → AgreesBelow facts (claimed_after s id claims).known }
{}

/// A load over a graph that knows the devices of a network knows them still, where their names are
/// among those that are loaded. No name has more claims than it had.
pub fn loads_lead_graphs_on()
    ensures below { (before now : Facts) (old : Known) (plain : List (List ℕ))
        (radio : List RadioPort)
        → AgreesBelow before old → ((name : List ℕ) → now.device name ≡ before.device name)
        → map port_of radio ≡ radio_ports now
        → ((name : List ℕ) (d : Device) → before.device name ≡ Some d
        → Contains (names_of now.conf ++ plain) name)
        → AgreesBelow now (known_of old.names now.conf plain radio) }
    ensures claims { (old : List Named) (rows : Conf) (plain : List (List ℕ))
        (radio : List RadioPort) (name : List ℕ)
        → claims_in (known_of old rows plain radio) name ≤ claims_among old name }
{}

/// A graph has the claims of its network where it has those of the names that it knows: no
/// interface uses another.
pub fn claims_of_known_names_are_all()
    ensures unknown { (facts : Facts) (s : Known) (name : List ℕ) → AgreesBelow facts s
        → KnowsRows s → (Contains (names_in s) name → ⊥)
        → length (filter (uses facts name) (interfaces_of facts.conf)) ≡ 0 }
    ensures all { (facts : Facts) (s : Known) → AgreesBelow facts s → KnowsRows s
        → ((name : List ℕ) → Contains (names_in s) name → claims_in s name
        ≡ length (filter (uses facts name) (interfaces_of facts.conf))) → Agrees facts s }
{}
