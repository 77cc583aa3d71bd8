//! What is looked up in slots: whether objects are on a side, and the links of names.
ghost use Rattle.std.specs.Prelude.{◌≡◌, IfSome, IfNone};
ghost use Rattle.std.specs.FinSet as set;
ghost use Rattle.kern_model.specs.ObjectOrder.{Has};
ghost use Rattle.graph_objects.specs.Keys as key;
ghost use Rattle.graph_objects.specs.Slots.{AreSlots, set_on};
ghost use Rattle.graph_objects.specs.Lookup.{IsFound};
ghost use Rattle.graph_objects.specs.Steady.{IsSteady};
ghost use Rattle.graph_objects.specs.Links as spec;

use crate::key::{ObjectKey, key_of};
use crate::slot::{Side, Slot, on};
use indexmap::IndexMap;
use kern_model::{DevName, LinkKind, Object};

/// The object on a side that has the key of this one.
pub(crate) fn object_at(
    slots: &IndexMap<ObjectKey, Slot>,
    side: Side,
    object: &Object,
) -> Option<Object>
    requires { AreSlots slots.now.entries }
    ensures found { IsFound (set_on side slots.now.entries) object.now result }
    ensures steady { IsSteady (set_on side slots.now.entries) }
{
    match slots.get_index_of(&key_of(object)) {
        Some(index) => on(side, &slots[index]),
        None => None,
    }
}

/// Whether an object is on a side.
pub(crate) fn has(slots: &IndexMap<ObjectKey, Slot>, side: Side, object: &Object) -> bool
    requires { AreSlots slots.now.entries }
    ensures { result ≡ set.contains (set_on side slots.now.entries) object.now }
{
    match object_at(slots, side, object) {
        Some(found) => found.same(object),
        None => false,
    }
}

/// The kind of a link.
fn link_kind(object: &Object) -> Option<LinkKind>
    ensures { result ≡ spec.link_kind object.now }
{
    match object {
        Object::Link { kind, .. } => Some(*kind),
        _ => None,
    }
}

/// The kind of the link of a name.
pub(crate) fn link_of(
    slots: &IndexMap<ObjectKey, Slot>,
    side: Side,
    name: &DevName,
) -> Option<LinkKind>
    requires { AreSlots slots.now.entries }
    ensures some { IfSome result (λ kind.
        Has (set_on side slots.now.entries) (Object.Link name.now kind)) }
    ensures none { IfNone result ((kind : _)
        → Has (set_on side slots.now.entries) (Object.Link name.now kind) → ⊥) }
    ensures steady { IsSteady (set_on side slots.now.entries) }
{
    let named = Object::Link {
        name: *name,
        kind: LinkKind::Bridge {
            mac: None,
            filtering: false,
        },
    };
    match object_at(slots, side, &named) {
        Some(object) => link_kind(&object),
        None => None,
    }
}

/// The name under a VLAN.
pub(crate) fn lower_name(kind: &LinkKind) -> Option<DevName>
    ensures { result ≡ spec.lower_name kind.now }
{
    match kind {
        LinkKind::Bridge { .. } => None,
        LinkKind::Vlan { lower, .. } => Some(*lower),
    }
}

/// The name under the VLAN of a name.
pub(crate) fn lower_of(
    slots: &IndexMap<ObjectKey, Slot>,
    side: Side,
    name: &DevName,
) -> Option<DevName>
    requires { AreSlots slots.now.entries }
    ensures some { IfSome result (spec.IsVlanAt (set_on side slots.now.entries) name.now) }
    ensures none { IfNone result (spec.HasNoVlan (set_on side slots.now.entries) name.now) }
    ensures steady { IsSteady (set_on side slots.now.entries) }
{
    match link_of(slots, side, name) {
        Some(kind) => lower_name(&kind),
        None => None,
    }
}
