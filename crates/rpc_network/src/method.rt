//! The methods of the objects.
ghost use Rattle.std.specs.Prelude.{◌≡◌};
ghost use Rattle.rpc_network.specs.Method as spec;

use crate::net_object::NetObject;

/// A method of an object of the network.
#[derive(Clone, Copy)]
pub(crate) enum Method {
    Reload,
    Dump,
    InterfaceStatus,
    Up,
    Down,
    /// The handler of an interface answers.
    NotifyProto,
    DeviceStatus,
    /// Something happens to a device.
    Event,
    RadioStatus,
    /// The handler of a radio answers.
    Notify,
}

impl Method {
    /// The method of an object that has this name, if there is one.
    pub(crate) fn of(object: NetObject, name: &[u8]) -> Option<Method>
        ensures { result ≡ spec.method_of object name.now }
    {
        match object {
            NetObject::Network => of_network(name),
            NetObject::Device => of_device(name),
            NetObject::Interface => of_interface(name),
            NetObject::Wireless => of_wireless(name),
        }
    }
}

fn of_network(name: &[u8]) -> Option<Method>
    ensures { result ≡ spec.of_network name.now }
{
    if name == b"reload".as_slice() {
        return Some(Method::Reload);
    }
    None
}

fn of_device(name: &[u8]) -> Option<Method>
    ensures { result ≡ spec.of_device name.now }
{
    if name == b"status".as_slice() {
        return Some(Method::DeviceStatus);
    }
    if name == b"event".as_slice() {
        return Some(Method::Event);
    }
    None
}

fn of_interface(name: &[u8]) -> Option<Method>
    ensures { result ≡ spec.of_interface name.now }
{
    if name == b"dump".as_slice() {
        return Some(Method::Dump);
    }
    if name == b"status".as_slice() {
        return Some(Method::InterfaceStatus);
    }
    if name == b"up".as_slice() {
        return Some(Method::Up);
    }
    if name == b"down".as_slice() {
        return Some(Method::Down);
    }
    if name == b"notify_proto".as_slice() {
        return Some(Method::NotifyProto);
    }
    None
}

fn of_wireless(name: &[u8]) -> Option<Method>
    ensures { result ≡ spec.of_wireless name.now }
{
    if name == b"status".as_slice() {
        return Some(Method::RadioStatus);
    }
    if name == b"notify".as_slice() {
        return Some(Method::Notify);
    }
    None
}
