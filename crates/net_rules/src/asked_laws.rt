// Laws of the definitions. Each body is empty, and the contract is the law.
ghost use Rattle.std.specs.Prelude.{◌≡◌, ◌↔◌, ◌++◌, [], ℕ, List, Bool, false, map, Contains};
ghost use Rattle.std.specs.Prelude.{bytes_eq};
ghost use Rattle.kern_model.specs.declared.object.DevEvent.{DevEvent};
ghost use Rattle.net_rows.specs.declared.rows.InterfaceRow.{InterfaceRow};
ghost use Rattle.net_rules.specs.declared.answer.Answer.{Answer};
ghost use Rattle.net_rules.specs.declared.inputs.Inputs.{Inputs};
ghost use Rattle.net_rules.specs.declared.event.Event.TheVariants as event;
ghost use Rattle.net_rules.specs.declared.event.Notice.TheVariants as notice;
ghost use Rattle.net_rules.specs.Facts.{Facts};
ghost use Rattle.net_rules.specs.Rows.{interfaces_of};
ghost use Rattle.net_rules.specs.RadioPorts.{device_of};
ghost use Rattle.net_rules.specs.Available.{available, link};
ghost use Rattle.net_rules.specs.Interfaces.{is_claimed, is_up, l3_device_of};
ghost use Rattle.net_rules.specs.Need.{interface_need};
ghost use Rattle.net_rules.specs.Want.{given};
ghost use Rattle.net_rules.specs.Inputs.{facts_of, open_interface};
ghost use Rattle.net_rules.specs.After.{opened_interfaces, changed, asked, after};
ghost use Rattle.net_rules.specs.Notices.{interface_notice, notices_between, notices};
ghost use Rattle.net_rules.specs.Fresh.{IsReached};
ghost use Rattle.net_rules.specs.Reach.{name_of};
ghost use Rattle.net_rules.specs.Above.{IsAbove, IsOffBase, DiffersAt};
ghost use Rattle.net_rules.specs.Touched.{HasSameRequests, NeedsStay, left_requests, lost_numbers};
ghost use Rattle.net_rules.specs.Touched.{touched_requests, asked_of};

/// Where rows, open requests and the needs of interfaces that are not touched stay, the requests of
/// touched interfaces alone follow their needs. What is told then is which of them were lost and
/// which were opened, and the requests of all other interfaces stay with their answers.
pub fn requests_follow_touched_needs()
    ensures asked { (before now : Inputs) (touched : List ℕ → Bool) → IsReached before
        → HasSameRequests before now → NeedsStay (facts_of before) (facts_of now) touched
        → asked now ≡ asked_of touched now }
    ensures told { (before now : Inputs) (touched : List ℕ → Bool) → IsReached before
        → HasSameRequests before now → notices_between before (asked_of touched now)
        ≡ map notice.Dropped (lost_numbers (facts_of now) touched now.interfaces)
        ++ map (interface_notice now.conf) (opened_interfaces now.next
        (touched_requests now touched (left_requests (facts_of now) touched now.interfaces))) }
    ensures others { (inputs : Inputs) (touched : List ℕ → Bool) (name : List ℕ)
        → touched name ≡ false → open_interface (asked_of touched inputs).interfaces name
        ≡ open_interface inputs.interfaces name }
{}

/// What happens to a device leaves alone what stands on what, the names that are not above it, the
/// needs and claims of interfaces on these, and what they give. Where each interface that is not
/// touched is on such a name, or on none, the needs of these stay.
pub fn devices_touch_what_is_above()
    ensures event { (inputs : Inputs) (what : DevEvent) → DiffersAt (name_of what)
        (facts_of inputs) (facts_of (changed inputs (event.Device what))) }
    ensures above { (before now : Facts) (base other name : List ℕ) → DiffersAt base before now
        → (IsAbove before other name ↔ IsAbove now other name) }
    ensures names { (before now : Facts) (base name : List ℕ) → DiffersAt base before now
        → (IsAbove before base name → ⊥) → (available now name ≡ available before name)
        × (link now name ≡ link before name) }
    ensures places { (before now : Facts) (base : List ℕ) (row : InterfaceRow)
        → DiffersAt base before now → (device_of now row ≡ device_of before row)
        × (l3_device_of now row ≡ l3_device_of before row) }
    ensures needs { (before now : Facts) (base : List ℕ) (row : InterfaceRow)
        → DiffersAt base before now → IsOffBase before base (device_of before row)
        → (is_claimed now row ≡ is_claimed before row)
        × (interface_need now row ≡ interface_need before row) }
    ensures uses { (before now : Facts) (base : List ℕ) (row : InterfaceRow)
        → DiffersAt base before now → IsOffBase before base (device_of before row)
        → IsOffBase before base (l3_device_of before row) → (is_up now row ≡ is_up before row)
        × (given now row ≡ given before row) }
    ensures stay { (before now : Facts) (base : List ℕ) (touched : List ℕ → Bool)
        → DiffersAt base before now → ((row : InterfaceRow)
        → Contains (interfaces_of before.conf) row → touched row.name ≡ false
        → IsOffBase before base (device_of before row)) → NeedsStay before now touched }
{}

/// An operator state touches the interface that it names. An answer touches no request, and nothing
/// is told of it.
pub fn operator_states_and_answers_touch_one()
    ensures operator_state { (inputs : Inputs) (interface : List ℕ) (up : Bool) → NeedsStay
        (facts_of inputs) (facts_of (changed inputs (event.Operator interface up)))
        (λ name. bytes_eq name interface) }
    ensures answer { (inputs : Inputs) (interface : List ℕ) (number : ℕ) (answer : Answer)
        → IsReached inputs → after inputs (event.Answer interface number answer)
        ≡ changed inputs (event.Answer interface number answer) }
    ensures silent { (inputs : Inputs) (interface : List ℕ) (number : ℕ) (answer : Answer)
        → IsReached inputs → notices inputs (event.Answer interface number answer) ≡ [] }
{}
