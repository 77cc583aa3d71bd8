//! Whether a kernel admits a call, judged by the list of its present devices and that of its
//! objects.
ghost use Rattle.std.specs.Prelude.{◌≡◌, ◌↔◌, ◌||◌, IsTrue, bytes_eq};
ghost use Rattle.std.specs.List.{list_any};
ghost use Rattle.std.specs.FinMap as map;
ghost use Rattle.kern_model.specs.ObjectOrder.{set_of};
ghost use Rattle.kern_model.specs.Kernel.{map_of, is_present, own_mtu, own_mac, Exists, MayHappen};
ghost use Rattle.kern_model.specs.Admission.{Admits};
ghost use Rattle.kern_model.specs.AdmissionTest.{is_link_of, is_bridge_of, is_filtering_of};
ghost use Rattle.kern_model.specs.AdmissionTest.{is_vlan_with};
ghost use Rattle.kern_model.specs.AdmissionTest.{is_master_of, is_vlan_on, is_pvid_on, is_vlan_of};
ghost use Rattle.kern_model.specs.AdmissionTest.{is_at};
ghost use Rattle.kern_model.specs.AdmissionTest.{is_among, lacks_lower, needs_up, exists};
ghost use Rattle.kern_model.specs.AdmissionTest.{may_be_made};
ghost use Rattle.kern_model.specs.AdmissionTest.{master_may_be_set, port_vlan_may_be_set};
ghost use Rattle.kern_model.specs.AdmissionTest.{may_be_put};
ghost use Rattle.kern_model.specs.AdmissionTest.{may_be_taken, call_passes, event_passes};

use crate::name::DevName;
use crate::object::{Call, DevEvent, Device, LinkKind, Mac, Object};
use crate::vlan_name::{LEAST_VLAN_ID, MOST_VLAN_ID};

/// Whether a kernel of these devices and objects admits the call.
pub fn admits(devices: &[(DevName, Device)], objects: &[Object], call: &Call) -> bool
    ensures { IsTrue result ↔ Admits (map_of devices.now) (set_of objects.now) call.now }
{
    call_passes(devices, objects, call)
}

/// Whether the event may happen to a kernel of these devices and objects: a device that comes under
/// a name that does not exist, or one that is present.
pub fn may_happen(devices: &[(DevName, Device)], objects: &[Object], event: &DevEvent) -> bool
    ensures { IsTrue result ↔ MayHappen (map_of devices.now) (set_of objects.now) event.now }
{
    event_passes(devices, objects, event)
}

/// Whether the name is that of a present device or of a link among the objects.
pub fn name_exists(devices: &[(DevName, Device)], objects: &[Object], name: &DevName) -> bool
    ensures { IsTrue result ↔ Exists (map_of devices.now) (set_of objects.now) name.now }
{
    exists(devices, objects, name)
}

fn event_passes(devices: &[(DevName, Device)], objects: &[Object], event: &DevEvent) -> bool
    ensures { result ≡ event_passes devices.now objects.now event.now }
{
    match event {
        DevEvent::Add { name, .. } => !exists(devices, objects, name),
        DevEvent::Remove { name } => is_present(devices, name),
        DevEvent::Carrier { name, .. } => is_present(devices, name),
    }
}

fn call_passes(devices: &[(DevName, Device)], objects: &[Object], call: &Call) -> bool
    ensures { result ≡ call_passes devices.now objects.now call.now }
{
    match call {
        Call::Put(object) => { !is_among(objects, object) && may_be_put(devices, objects, object) }
        Call::Take { object, mtu, mac } => {
            is_among(objects, object)
                && may_be_taken(objects, object)
                && *mtu == own_mtu(devices, &object.name())
                && mac.0 == own_mac(devices, &object.name()).0
        }
    }
}

fn may_be_put(devices: &[(DevName, Device)], objects: &[Object], object: &Object) -> bool
    ensures { result ≡ may_be_put devices.now objects.now object.now }
{
    match object {
        Object::Link { name, kind } => {
            !exists(devices, objects, name) && may_be_made(devices, objects, kind)
        }
        Object::Mtu { name, .. } => exists(devices, objects, name),
        Object::Mac { name, .. } => is_present(devices, name),
        Object::Master { port, bridge } => master_may_be_set(devices, objects, port, bridge),
        Object::Vlan {
            bridge,
            port,
            id,
            pvid,
            ..
        } => port_vlan_may_be_set(objects, bridge, port, *id, *pvid),
        Object::Up { name } => {
            exists(devices, objects, name) && !is_lower_missing(objects, name)
        }
        Object::Address { dev, .. } => is_among(objects, &Object::Up { name: *dev }),
        Object::Route(route) => is_among(objects, &Object::Up { name: route.dev }),
    }
}

fn may_be_taken(objects: &[Object], object: &Object) -> bool
    ensures { result ≡ may_be_taken objects.now object.now }
{
    match object {
        Object::Link { name, .. } => !is_occupied(objects, name),
        Object::Master { port, bridge } => !has_vlan_of(objects, bridge, port),
        Object::Up { name } => !is_needed_up(objects, name),
        _ => true,
    }
}

fn may_be_made(devices: &[(DevName, Device)], objects: &[Object], kind: &LinkKind) -> bool
    ensures { result ≡ may_be_made devices.now objects.now kind.now }
{
    match kind {
        LinkKind::Bridge { .. } => true,
        LinkKind::Vlan { lower, id, .. } => {
            exists(devices, objects, lower)
                && LEAST_VLAN_ID <= *id
                && *id <= MOST_VLAN_ID
                && !has_vlan(objects, lower, *id)
        }
    }
}

fn has_vlan(objects: &[Object], lower: &DevName, id: u16) -> bool
    ensures { result ≡ list_any (is_vlan_with lower.now id) objects.now }
{
    objects.iter().any(|held| held.is_vlan_with(lower, id))
}

fn master_may_be_set(
    devices: &[(DevName, Device)],
    objects: &[Object],
    port: &DevName,
    bridge: &DevName,
) -> bool
    ensures { result ≡ master_may_be_set devices.now objects.now port.now bridge.now }
{
    exists(devices, objects, port)
        && !is_bridge(objects, port)
        && is_bridge(objects, bridge)
        && !has_master(objects, port)
}

fn has_master(objects: &[Object], port: &DevName) -> bool
    ensures { result ≡ list_any (is_master_of port.now) objects.now }
{
    objects.iter().any(|held| held.is_master_of(port))
}

fn port_vlan_may_be_set(
    objects: &[Object],
    bridge: &DevName,
    port: &DevName,
    id: u16,
    pvid: bool,
) -> bool
    ensures { result ≡ port_vlan_may_be_set objects.now bridge.now port.now id pvid }
{
    is_filtering(objects, bridge)
        && is_joined(objects, port, bridge)
        && !has_vlan_on(objects, port, id)
        && !(pvid && has_pvid(objects, port))
}

fn is_filtering(objects: &[Object], name: &DevName) -> bool
    ensures { result ≡ list_any (is_filtering_of name.now) objects.now }
{
    objects.iter().any(|held| held.is_filtering_of(name))
}

// Whether the port is the bridge itself or has it as its master.
fn is_joined(objects: &[Object], port: &DevName, bridge: &DevName) -> bool
    ensures { result ≡ (bytes_eq port.now bridge.now
        || is_among objects.now (Object.Master port.now bridge.now)) }
{
    port.text() == bridge.text()
        || is_among(
            objects,
            &Object::Master {
                port: *port,
                bridge: *bridge,
            },
        )
}

fn has_vlan_on(objects: &[Object], port: &DevName, id: u16) -> bool
    ensures { result ≡ list_any (is_vlan_on port.now id) objects.now }
{
    objects.iter().any(|held| held.is_vlan_on(port, id))
}

fn has_pvid(objects: &[Object], port: &DevName) -> bool
    ensures { result ≡ list_any (is_pvid_on port.now) objects.now }
{
    objects.iter().any(|held| held.is_pvid_on(port))
}

fn has_vlan_of(objects: &[Object], bridge: &DevName, port: &DevName) -> bool
    ensures { result ≡ list_any (is_vlan_of bridge.now port.now) objects.now }
{
    objects.iter().any(|held| held.is_vlan_of(bridge, port))
}

/// Whether the object is among them.
pub fn is_among(objects: &[Object], object: &Object) -> bool
    ensures { result ≡ is_among objects.now object.now }
{
    objects.iter().any(|held| object.is(held))
}

fn exists(devices: &[(DevName, Device)], objects: &[Object], name: &DevName) -> bool
    ensures { result ≡ exists devices.now objects.now name.now }
{
    is_present(devices, name) || is_link(objects, name)
}

fn is_link(objects: &[Object], name: &DevName) -> bool
    ensures { result ≡ list_any (is_link_of name.now) objects.now }
{
    objects.iter().any(|held| held.is_link_of(name))
}

fn is_bridge(objects: &[Object], name: &DevName) -> bool
    ensures { result ≡ list_any (is_bridge_of name.now) objects.now }
{
    objects.iter().any(|held| held.is_bridge_of(name))
}

fn is_lower_missing(objects: &[Object], name: &DevName) -> bool
    ensures { result ≡ list_any (lacks_lower objects.now name.now) objects.now }
{
    objects.iter().any(|held| lacks_lower(objects, name, held))
}

fn is_occupied(objects: &[Object], name: &DevName) -> bool
    ensures { result ≡ list_any (is_at name.now) objects.now }
{
    objects.iter().any(|held| held.is_at(name))
}

fn is_needed_up(objects: &[Object], name: &DevName) -> bool
    ensures { result ≡ list_any (needs_up objects.now name.now) objects.now }
{
    objects.iter().any(|held| needs_up(objects, name, held))
}

fn lacks_lower(objects: &[Object], name: &DevName, held: &Object) -> bool
    ensures { result ≡ lacks_lower objects.now name.now held.now }
{
    match held {
        Object::Link {
            name: other,
            kind: LinkKind::Vlan { lower, .. },
        } => other.text() == name.text() && !is_among(objects, &Object::Up { name: *lower }),
        _ => false,
    }
}

fn needs_up(objects: &[Object], name: &DevName, held: &Object) -> bool
    ensures { result ≡ needs_up objects.now name.now held.now }
{
    match held {
        Object::Address { dev, .. } => dev.text() == name.text(),
        Object::Route(route) => route.dev.text() == name.text(),
        Object::Link {
            name: vlan,
            kind: LinkKind::Vlan { lower, .. },
        } => lower.text() == name.text() && is_among(objects, &Object::Up { name: *vlan }),
        _ => false,
    }
}

/// Whether a device of that name is present.
pub fn is_present(devices: &[(DevName, Device)], name: &DevName) -> bool
    ensures { result ≡ is_present (map_of devices.now) name.now }
{
    find_device(devices, name).is_some()
}

/// The present device of that name.
pub fn find_device(devices: &[(DevName, Device)], name: &DevName) -> Option<Device>
    ensures { result ≡ map.get (map_of devices.now) name.now }
{
    for (other, device) in devices {
        if other.same(name) {
            return Some(*device);
        }
    }
    None
}

/// The MTU of that name's own: that which a present device came with, else 1500 bytes.
pub fn own_mtu(devices: &[(DevName, Device)], name: &DevName) -> u32
    ensures { result ≡ own_mtu (map_of devices.now) name.now }
{
    find_device(devices, name).map_or(1500, |device| device.mtu)
}

/// The hardware address of that name's own: that which a present device came with, else zeros.
pub fn own_mac(devices: &[(DevName, Device)], name: &DevName) -> Mac
    ensures { result ≡ own_mac (map_of devices.now) name.now }
{
    find_device(devices, name).map_or(Mac([0; 6]), |device| device.mac)
}
