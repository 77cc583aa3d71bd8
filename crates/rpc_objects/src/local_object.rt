ghost use Rattle.std.specs.Prelude.{◌≡◌};
ghost use Rattle.rpc_objects.specs.Object as spec;

use rpc_network::NetObject;

/// A local object of the message bus.
#[derive(Clone, Copy)]
pub enum LocalObject {
    Session,
    Uci,
    Network(NetObject),
}

impl LocalObject {
    /// The object of a path, if there is one.
    pub fn of_path(path: &[u8]) -> Option<LocalObject>
        ensures { result ≡ spec.of_path path.now }
    {
        if path == b"session".as_slice() {
            return Some(LocalObject::Session);
        }
        if path == b"uci".as_slice() {
            return Some(LocalObject::Uci);
        }
        match NetObject::of(path) {
            Some(object) => Some(LocalObject::Network(object)),
            None => None,
        }
    }

    /// The object of a number on the bus, if there is one: from 2 to 7.
    pub fn of_number(number: u32) -> Option<LocalObject>
        ensures { result ≡ spec.of_number number }
    {
        match number {
            2 => Some(LocalObject::Session),
            3 => Some(LocalObject::Uci),
            4 => Some(LocalObject::Network(NetObject::Network)),
            5 => Some(LocalObject::Network(NetObject::Device)),
            6 => Some(LocalObject::Network(NetObject::Interface)),
            7 => Some(LocalObject::Network(NetObject::Wireless)),
            _ => None,
        }
    }
}
