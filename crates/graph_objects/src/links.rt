//! Links that are held, by name alone.
ghost use Rattle.std.specs.Prelude.{◌≡◌};
ghost use Rattle.std.specs.FinSet as set;
ghost use Rattle.std.specs.List.{list_any};
ghost use Rattle.kern_model.specs.AdmissionTest.{is_link_of};
ghost use Rattle.graph_objects.specs.Slots.{AreSlots, set_on};

use crate::key::ObjectKey;
use crate::slot::{Side, Slot};
use crate::slots::link_of;
use indexmap::IndexMap;
use kern_model::DevName;

/// Whether a link of that name is held, of whatever kind.
pub(crate) fn holds_link(slots: &IndexMap<ObjectKey, Slot>, name: &DevName) -> bool
    requires { AreSlots slots.now.entries }
    ensures { result ≡ list_any (is_link_of name.now)
        (set.items (set_on Side.Held slots.now.entries)) }
{
    link_of(slots, Side::Held, name).is_some()
}
