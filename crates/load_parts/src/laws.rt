// Laws of the definitions. Each body is empty, and the contract is the law.
ghost use Rattle.std.specs.Prelude.{◌≡◌, ◌++◌, ℕ, List, Contains, map, Some};
ghost use Rattle.plane_words.specs.Distinct.{AreDistinct};
ghost use Rattle.kern_model.specs.declared.object.Device.{Device};
ghost use Rattle.net_rules.specs.declared.inputs.Inputs.{Inputs};
ghost use Rattle.net_rules.specs.Rows.{names_of};
ghost use Rattle.net_rules.specs.RadioPorts.{RadioPort, radio_ports};
ghost use Rattle.net_rules.specs.Inputs.{device_in, facts_of};
ghost use Rattle.graph_laws.specs.Knowing.{AreFurther};
ghost use Rattle.load_parts.specs.Further.{further_names};

/// Where one device has a name, the further names are names beside those of the rows. With these
/// they have all present devices and all ports that radios give to bridges.
pub fn further_names_are_those_that_lack()
    ensures further { (inputs : Inputs) → AreDistinct (map (λ e. e.0) inputs.devices)
        → AreFurther inputs.conf (further_names inputs) }
    ensures devices { (inputs : Inputs) (name : List ℕ) (d : Device)
        → device_in inputs.devices name ≡ Some d
        → Contains (names_of inputs.conf ++ further_names inputs) name }
    ensures ports { (inputs : Inputs) (j : RadioPort)
        → Contains (radio_ports (facts_of inputs)) j
        → Contains (names_of inputs.conf ++ further_names inputs) j.port }
{}
