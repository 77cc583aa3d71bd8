ghost use Rattle.std.specs.Prelude.{◌≡◌};
ghost use Rattle.graph_objects.specs.Keys as spec;

use kern_model::{Call, DevName, Object};

/// What tells an object from those that a kernel can hold beside it: its kind, its name, and of a
/// VLAN of a bridge its id.
#[derive(Clone, Copy, PartialEq, Eq, Hash)]
pub(crate) struct ObjectKey {
    rank: u8,
    name: DevName,
    id: u16,
}

fn vlan_id(object: &Object) -> u16
    ensures { result ≡ spec.vlan_id object.now }
{
    match object {
        Object::Vlan { id, .. } => *id,
        _ => 0,
    }
}

/// The key of an object.
pub(crate) fn key_of(object: &Object) -> ObjectKey
    ensures { result ≡ spec.key_of object.now }
{
    ObjectKey {
        rank: Call::Put(*object).rank(),
        name: object.name(),
        id: vlan_id(object),
    }
}
