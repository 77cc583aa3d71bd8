//! Takes with the own values of devices.
ghost use Rattle.std.specs.Prelude.{◌≡◌, Some};
ghost use Rattle.kern_calls.specs.Calls as calls;
ghost use Rattle.graph_rules.specs.State.{device_in, devices_in, Known};
ghost use Rattle.graph_counts.specs.Sound.{IsSound};
ghost use Rattle.dev_graph.specs.Inside.{known_in};

use graph_counts::CountedNames;
use kern_model::{Call, DevName, Device, Mac, Object};

/// The present device of a name.
fn device_of(names: &Option<CountedNames>, name: &DevName) -> Option<Device>
    ensures { result ≡ device_in (known_in names.now) name.now }
{
    match names {
        Some(names) => names.names().told(name).device,
        None => None,
    }
}

/// The take of an object with the own values of its name's device.
pub(crate) fn own_take(names: &Option<CountedNames>, object: Object) -> Call
    requires { (s : Known) → names.now ≡ Some s → IsSound s }
    ensures { result ≡ calls.own_take (devices_in (known_in names.now)) object }
{
    match device_of(names, &object.name()) {
        Some(device) => Call::Take {
            object,
            mtu: device.mtu,
            mac: device.mac,
        },
        None => Call::Take {
            object,
            mtu: 1500,
            mac: Mac([0; 6]),
        },
    }
}
