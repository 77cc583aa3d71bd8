//! How the table of the objects that a kernel holds changes.
ghost use Rattle.std.specs.Prelude.{◌≡◌, ◌≤◌, ◌+◌, true, not, position, length, if◌then◌else◌};
ghost use Rattle.std.specs.Prelude.{OnOk, OnErr};
ghost use Rattle.std.specs.FinSet as set;
ghost use Rattle.kern_model.specs.declared.object.Call.TheVariants.{Put};
ghost use Rattle.kern_model.specs.AdmissionTest.{is_at, is_vlan_over};
ghost use Rattle.kern_model.specs.ObjectOrder.{set_of};
ghost use Rattle.kern_model.specs.Kernel.{after_call};
ghost use Rattle.kern_model.specs.Standing.{gone};
ghost use Rattle.indexmap.specs.IndexSet.{spare};
ghost use Rattle.kern_memory.specs.Tables.{is_put};

use indexmap::IndexSet;
use kern_model::{Call, DevName, LinkKind, Object};
use plane_io::Memory;

/// Puts an object: what it takes the place of leaves. Where memory lacks, all stays.
fn put(objects: &mut IndexSet<Object>, object: &Object) -> Result<(), Memory>
    ensures ok { OnOk result (set_of objects.new.keys
        ≡ after_call (set_of objects.old.keys) (Put object.now)) }
    ensures err { OnErr result (objects.new.keys ≡ objects.old.keys) }
    ensures full { OnErr result (spare objects.old ≡ 0) }
    ensures room { spare objects.old ≤ spare objects.new + 1 }
{
    // An insertion is proved only where a local names the enums within.
    let _named: Option<LinkKind> = None;
    let _added = objects.insert(*object)?;
    if object.is_value() {
        objects.retain(|held| !object.replaces(held) || object.is(held));
    }
    Ok(())
}

/// Does what a call does. Where memory lacks, all stays.
pub(crate) fn change(objects: &mut IndexSet<Object>, call: &Call) -> Result<(), Memory>
    ensures did { OnOk result (set_of objects.new.keys
        ≡ after_call (set_of objects.old.keys) call.now) }
    ensures err { OnErr result (objects.new.keys ≡ objects.old.keys) }
    ensures full { OnErr result ((is_put call.now ≡ true) × (spare objects.old ≡ 0)) }
    ensures room { spare objects.old
        ≤ spare objects.new + (if is_put call.now then 1 else 0) }
{
    match call {
        Call::Put(object) => put(objects, object),
        Call::Take { object, .. } => {
            objects.swap_remove(object);
            Ok(())
        }
    }
}

fn find_vlan_over(objects: &IndexSet<Object>, name: &DevName) -> Option<usize>
    ensures { result ≡ position (is_vlan_over name.now) objects.now.keys }
{
    objects
        .as_slice()
        .iter()
        .position(|held| held.is_vlan_over(name))
}

/// Removes the objects at the name.
fn remove_at(objects: &mut IndexSet<Object>, name: &DevName)
    ensures items { set_of objects.new.keys
        ≡ set.retain (set_of objects.old.keys) (λ o. not (is_at name.now o)) }
    ensures fewer { length objects.new.keys ≤ length objects.old.keys }
    ensures room { spare objects.old ≤ spare objects.new }
{
    for index in (0..objects.len()).rev() {
        if objects[index].is_at(name) {
            objects.swap_remove_index(index);
        }
    }
}

/// Removes what goes with a device of that name: with each VLAN over it what stands on that, and
/// then the objects at the name.
pub(crate) fn remove_standing_on(objects: &mut IndexSet<Object>, name: &DevName)
    ensures left { set_of objects.new.keys ≡ gone (set_of objects.old.keys) name.now }
    ensures fewer { length objects.new.keys ≤ length objects.old.keys }
    ensures room { spare objects.old ≤ spare objects.new }
{
    let Some(index) = find_vlan_over(objects, name) else {
        remove_at(objects, name);
        return;
    };
    let Some(vlan) = objects.swap_remove_index(index) else {
        return;
    };
    remove_standing_on(objects, &vlan.name());
    remove_standing_on(objects, name);
}
