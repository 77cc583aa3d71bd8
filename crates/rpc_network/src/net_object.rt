ghost use Rattle.std.specs.Prelude.{◌≡◌};
ghost use Rattle.rpc_network.specs.Method as spec;

/// A local object of the network.
#[derive(Clone, Copy)]
pub enum NetObject {
    Network,
    Device,
    Interface,
    Wireless,
}

impl NetObject {
    /// The object of a path, if there is one: `network`, `network.device`, `network.interface` or
    /// `network.wireless`.
    pub fn of(path: &[u8]) -> Option<NetObject>
        ensures { result ≡ spec.object_of path.now }
    {
        if path == b"network".as_slice() {
            return Some(NetObject::Network);
        }
        if path == b"network.device".as_slice() {
            return Some(NetObject::Device);
        }
        if path == b"network.interface".as_slice() {
            return Some(NetObject::Interface);
        }
        if path == b"network.wireless".as_slice() {
            return Some(NetObject::Wireless);
        }
        None
    }
}
