//! How the table of the present devices of a kernel changes.
ghost use Rattle.std.specs.Prelude.{◌≡◌, ◌≤◌, ◌+◌, OnOk, OnErr};
ghost use Rattle.std.specs.FinMap as map;
ghost use Rattle.kern_model.specs.declared.object.DevEvent.TheVariants.{Remove, Carrier};
ghost use Rattle.kern_model.specs.Kernel.{map_of, after_event};
ghost use Rattle.indexmap.specs.IndexMap.{spare};

use indexmap::IndexMap;
use kern_model::{DevName, Device};
use plane_io::Memory;

/// A device comes. Where memory lacks, all stays.
pub(crate) fn add_device(
    devices: &mut IndexMap<DevName, Device>,
    name: &DevName,
    device: Device,
) -> Result<(), Memory>
    ensures ok { OnOk result (map_of devices.new.entries
        ≡ map.insert (map_of devices.old.entries) name.now device) }
    ensures err { OnErr result (devices.new.entries ≡ devices.old.entries) }
    ensures full { OnErr result (spare devices.old ≡ 0) }
    ensures room { spare devices.old ≤ spare devices.new + 1 }
{
    let _old = devices.insert(*name, device)?;
    Ok(())
}

/// The device of that name leaves.
pub(crate) fn remove_device(devices: &mut IndexMap<DevName, Device>, name: &DevName)
    ensures left { map_of devices.new.entries
        ≡ after_event (map_of devices.old.entries) (Remove name.now) }
    ensures room { spare devices.old ≤ spare devices.new }
{
    devices.swap_remove(name);
}

/// Sets the carrier of the device of that name.
pub(crate) fn set_carrier(devices: &mut IndexMap<DevName, Device>, name: &DevName, on: bool)
    ensures told { map_of devices.new.entries
        ≡ after_event (map_of devices.old.entries) (Carrier name.now on) }
    ensures room { spare devices.new ≡ spare devices.old }
{
    if let Some(device) = devices.get_mut(name) {
        device.carrier = on;
    }
}
