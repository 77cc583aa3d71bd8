//! A table of what may be wanted, with what is held from before.
ghost use Rattle.std.specs.Prelude.{◌≡◌, [], IfOk, OnOk};
ghost use Rattle.graph_objects.specs.Marks.{held_of};
ghost use Rattle.graph_rules.specs.State.{name_list};
ghost use Rattle.graph_wishes.specs.Wishes.{mays};
ghost use Rattle.graph_tables.specs.Lists.{AreApart, HaveSame};
ghost use Rattle.graph_tables.specs.Whole.{IsWhole};
ghost use Rattle.graph_tables.specs.Wished.{known, wishes_at};

use crate::wishes::wishes_of;
use graph_names::Names;
use graph_objects::{DeviceObjects, Wish};
use graph_rules::RadioPort;
use net_rows::{NameRow, VlanRow};
use plane_io::Memory;
use std::alloc::Global;

fn expect_all(objects: &mut DeviceObjects, wishes: &[Wish]) -> Result<(), Memory>
    requires none { objects.old.wishes ≡ [] }
    requires apart { AreApart wishes.now }
    ensures held { objects.new.held ≡ objects.old.held }
    ensures ok { OnOk result (HaveSame objects.new.wishes wishes.now) }
{
    for wish in wishes {
        objects.expect(*wish)?;
    }
    Ok(())
}

/// A table of wishes, in which is held what another holds.
fn filled(alloc: Global, wishes: &[Wish], old: &DeviceObjects) -> Result<DeviceObjects, Memory>
    requires { AreApart wishes.now }
    ensures held { IfOk result (λ objects. held_of objects ≡ held_of old.now) }
    ensures wishes { IfOk result (λ objects. HaveSame objects.wishes wishes.now) }
{
    let mut objects = DeviceObjects::new(alloc);
    expect_all(&mut objects, wishes)?;
    objects.keep_all(old)?;
    Ok(objects)
}

/// A table of what names may want, of which those of the rows come first, with the ports of radios.
/// In it is held what another holds, and nothing is wanted yet.
///
/// # Errors
///
/// `Memory` where there is not enough of it.
pub fn table(
    alloc: Global,
    names: &Names,
    rows: &[NameRow],
    vlans: &[VlanRow],
    radio: &[RadioPort],
    old: &DeviceObjects,
) -> Result<DeviceObjects, Memory>
    requires { IsWhole (known rows.now vlans.now names.now radio.now) }
    ensures held { IfOk result (λ objects. held_of objects ≡ held_of old.now) }
    ensures wishes { IfOk result (λ objects. HaveSame objects.wishes
        (wishes_at (name_list names.now) (mays (known rows.now vlans.now names.now radio.now)))) }
{
    let wishes = wishes_of(alloc, names, rows, vlans, radio)?;
    filled(alloc, wishes.as_slice(), old)
}
