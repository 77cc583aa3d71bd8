// Laws of the definitions. Each body is empty, and the contract is the law.
ghost use Rattle.std.specs.Prelude.{◌≡◌, ◌++◌, [], ◌∷◌, ℕ, List, Bool, Option, Some, None, map};
ghost use Rattle.plane_words.specs.Distinct.{AreDistinct};
ghost use Rattle.kern_model.specs.declared.object.Device.{Device};
ghost use Rattle.kern_model.specs.declared.object.DevEvent.TheVariants as device;
ghost use Rattle.kern_model.specs.declared.object.Mac.{Mac};
ghost use Rattle.net_rules.specs.declared.answer.Answer.{Answer};
ghost use Rattle.net_rules.specs.declared.request.InterfaceRequest.{InterfaceRequest};
ghost use Rattle.net_rules.specs.declared.inputs.Inputs.{Inputs};
ghost use Rattle.net_rules.specs.declared.inputs.OpenInterface.{OpenInterface};
ghost use Rattle.net_rules.specs.declared.event.Event.TheVariants as event;
ghost use Rattle.net_rules.specs.After.{changed, without_device};
ghost use Rattle.net_rules.specs.Inputs.{open_interface};
ghost use Rattle.known_inputs.specs.Known.{StandOnce, device_names};
ghost use Rattle.known_inputs.specs.Steps.{request_of, with_request, without_request};
ghost use Rattle.net_view.specs.Places.{place_of};
ghost use Rattle.net_reach.specs.declared.reach.Reach.{Reach};
ghost use Rattle.net_reach.specs.Reach.{IsReachOf, told_l3_device};
ghost use Rattle.net_reach.specs.L3Devices.{ReachesAlike, TellsL3Device};

/// What reaches what stays where rows, answers of radios, the names of present devices and all
/// layer-3 devices that were told are the same; so too where an interface is told the device again
/// that it was told.
pub fn reach_stays()
    ensures alike { (before now : Inputs) (reach : Reach) → ReachesAlike before now
        → IsReachOf before reach → IsReachOf now reach }
    ensures again { (before now : Inputs) (interface : List ℕ) (l3_device : Option (List ℕ))
        → TellsL3Device before now interface l3_device l3_device → ReachesAlike before now }
{}

/// An operator state, a carrier and a request that is opened change nothing of that.
pub fn steps_that_reach_alike()
    ensures operator_state { (inputs : Inputs) (interface : List ℕ) (up : Bool)
        → ReachesAlike inputs (changed inputs (event.Operator interface up)) }
    ensures carrier { (inputs : Inputs) (name : List ℕ) (on : Bool)
        → ReachesAlike inputs (changed inputs (event.Device (device.Carrier name on))) }
    ensures opened { (inputs : Inputs) (request : InterfaceRequest)
        → ReachesAlike inputs (with_request inputs request) }
{}

/// A device that comes is behind the present ones, each of which is there once still. Without it
/// they are what they were.
pub fn devices_come_and_go()
    ensures comes { (inputs : Inputs) (name : List ℕ) (carrier : Bool) (mtu : ℕ) (mac : Mac)
        → place_of (device_names inputs) name ≡ None
        → changed inputs (event.Device (device.Add name carrier mtu mac)) ≡ record inputs {
          devices = inputs.devices
              ++ (name, record { carrier = carrier; mtu = mtu; mac = mac }) ∷ [];
        } }
    ensures once { (inputs : Inputs) (name : List ℕ) (device : Device)
        → AreDistinct (device_names inputs) → place_of (device_names inputs) name ≡ None
        → AreDistinct (map (λ e. e.0) (inputs.devices ++ (name, device) ∷ [])) }
    ensures back { (inputs : Inputs) (name : List ℕ) (device : Device)
        → place_of (device_names inputs) name ≡ None → record inputs {
          devices = without_device name (inputs.devices ++ (name, device) ∷ []);
        } ≡ inputs }
{}

/// An answer to the open request of an interface tells it the answer's layer-3 device, and a
/// request that is closed leaves it none.
pub fn answers_tell_l3_devices()
    ensures answer { (inputs : Inputs) (interface : List ℕ) (o : OpenInterface) (answer : Answer)
        → open_interface inputs.interfaces interface ≡ Some o → TellsL3Device inputs
        (changed inputs (event.Answer interface o.number answer)) interface
        (told_l3_device inputs interface) answer.device }
    ensures closed { (inputs : Inputs) (number : ℕ) (o : OpenInterface) → StandOnce inputs
        → request_of inputs number ≡ Some o → TellsL3Device inputs (without_request inputs number)
        o.request.name (told_l3_device inputs o.request.name) None }
{}
