//! How the list of present devices changes in its place.
ghost use Rattle.std.specs.Prelude.{◌≡◌, ◌≤◌, map, vec_len, vec_capacity};
ghost use Rattle.plane_words.specs.Distinct.{AreDistinct};
ghost use Rattle.net_rules.specs.After.{devices_after};
ghost use Rattle.known_inputs.specs.Steps.{name_of, place_of, HasRoomBeside};
ghost use Rattle.known_inputs.specs.Places.{IsWithin, without_place, carrier_at};

use kern_model::{DevEvent, DevName, Device};

/// The devices after one came, left or was told of its carrier, by its place.
pub(crate) fn change(devices: &mut Vec<(DevName, Device)>, event: &DevEvent, place: Option<usize>)
    requires once { AreDistinct (map (λ e. e.0) devices.old.items) }
    requires place { place ≡ place_of (map (λ e. e.0) devices.old.items) (name_of event.now) }
    requires room { HasRoomBeside (vec_len devices.old) (vec_capacity devices.old) event.now }
    ensures items { devices.new.items ≡ devices_after devices.old.items event.now }
    ensures room { vec_capacity devices.new ≡ vec_capacity devices.old }
{
    match *event {
        DevEvent::Add {
            name,
            carrier,
            mtu,
            mac,
        } => {
            leave(devices, place);
            devices.push_reserved((name, Device { carrier, mtu, mac }));
        }
        DevEvent::Remove { .. } => leave(devices, place),
        DevEvent::Carrier { on, .. } => set_carrier(devices, place, on),
    }
}

fn leave(devices: &mut Vec<(DevName, Device)>, place: Option<usize>)
    requires { IsWithin (vec_len devices.old) place }
    ensures items { devices.new.items ≡ without_place devices.old.items place }
    ensures length { vec_len devices.new ≤ vec_len devices.old }
    ensures room { vec_capacity devices.new ≡ vec_capacity devices.old }
{
    if let Some(place) = place {
        let _gone = devices.remove(place);
    }
}

fn set_carrier(devices: &mut Vec<(DevName, Device)>, place: Option<usize>, on: bool)
    requires { IsWithin (vec_len devices.old) place }
    ensures items { devices.new.items ≡ carrier_at on devices.old.items place }
    ensures room { vec_capacity devices.new ≡ vec_capacity devices.old }
{
    if let Some(place) = place {
        devices[place].1.carrier = on;
    }
}
