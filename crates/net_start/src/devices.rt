ghost use Rattle.std.specs.Prelude.{◌≡◌, ◌≤◌, [], OnOk, OnErr};
ghost use Rattle.std.specs.FinSet as set;
ghost use Rattle.plane_words.specs.Distinct.{AreDistinct};
ghost use Rattle.kern_model.specs.Kernel.{Records};
ghost use Rattle.net_plane.specs.Network.{IsNew, IsOf, moment_of};
ghost use Rattle.net_start.specs.Inputs.{inputs_with, present_of};
ghost use Rattle.net_start.specs.Devices.{Came, CameInFront, additions};

use kern_model::{DevEvent, DevName, Kernel, Mac};
use net_plane::{Net, NetError};
use plane_io::Memory;
use std::alloc::Global;

/// The MTU of an Ethernet device, in bytes (RFC 894).
pub const ETHERNET_MTU: u32 = 1500;

/// Tells a new plane and its kernel that these devices came, in their order. A device that the
/// kernel did not take is absent.
pub(crate) fn add_devices<K: Kernel>(
    alloc: Global,
    names: &[DevName],
    net: &mut Net,
    kernel: &mut K,
) -> Result<(), Memory>
    requires new { IsNew net.old }
    requires of { IsOf K.Kernel kernel.old net.old }
    requires distinct { AreDistinct names.now }
    ensures moment { OnOk result (moment_of net.new ≡ record {
      inputs = inputs_with (present_of (K.devices kernel.new) names.now);
      held = set.empty;
    }) }
    ensures told { net.new.notices ≡ [] }
    ensures came { OnOk result (Came names.now
        (K.devices kernel.new) (K.faults kernel.old) (K.faults kernel.new)) }
    ensures asked { OnOk result (Records (K.asked kernel.old) (K.asked kernel.new)
        (additions (K.devices kernel.new) names.now)) }
    ensures memory { OnErr result (CameInFront names.now (K.devices kernel.new)
        (K.asked kernel.old) (K.asked kernel.new) (K.faults kernel.old) (K.faults kernel.new)) }
    ensures of { IsOf K.Kernel kernel.new net.new }
    ensures objects { K.objects kernel.new ≡ set.empty }
    ensures calls { K.calls kernel.new ≡ K.calls kernel.old }
    ensures later { K.faults kernel.old ≤ K.faults kernel.new }
{
    for name in names {
        let event = DevEvent::Add {
            name: *name,
            carrier: true,
            mtu: ETHERNET_MTU,
            mac: Mac([0; 6]),
        };
        let Err(error) = net.device(alloc, kernel, &event) else {
            continue;
        };
        let NetError::KernelFailed = error else {
            return Err(Memory);
        };
    }
    Ok(())
}
