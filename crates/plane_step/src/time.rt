//! The moment of a script.
ghost use Rattle.std.specs.Prelude.{◌≡◌, ◌≢◌, [], false, Err};
ghost use Rattle.snap_disk.specs.Images.{SameDisk};
ghost use Rattle.net_plane.specs.Network.{HasSameKernel};
ghost use Rattle.uci_store.specs.Store.{names_of, staged_in, has_failed, IsOnFiles};
ghost use Rattle.uci_tool.specs.Folder.{folder_of};
ghost use Rattle.uci_tool.specs.Stops.{StaysOrStops};
ghost use Rattle.plane_step.specs.declared.stop.Stop.TheVariants as stop;
ghost use Rattle.plane_step.specs.FilesMoved.{at_moved};
ghost use Rattle.plane_step.specs.LineDone.{GoesTo};

use crate::stop::Stop;
use net_plane::Net;
use plane_disk::Disk;
use script_lines::LineError;
use std::alloc::Global;
use step_net::{Told, refuse, reload, tell, tell_nothing};
use uci_store::Store;

/// The moment becomes this one, unless it is before the last. An apply whose deadline has come is
/// undone, and then the files are loaded.
pub(crate) fn go_to<D: Disk>(
    alloc: Global,
    moment: &mut u64,
    store: &mut Store,
    files: &mut D,
    net: &mut Net,
    next: u64,
) -> Result<Told, Stop>
    requires files { IsOnFiles store.old (D.view files.old) }
    requires ready { has_failed store.old ≡ false }
    requires told { net.old.notices ≡ [] }
    ensures goes { GoesTo next (record { now = moment.old; store = store.old; net = net.old })
        moment.new store.new net.new (D.view files.old).faults (D.view files.new).faults result }
    ensures kernel { HasSameKernel net.old net.new }
    ensures on { IsOnFiles store.new (D.view files.new) }
    ensures names { names_of store.new ≡ names_of store.old }
    ensures staged { staged_in store.new ≡ staged_in store.old }
    ensures same { SameDisk (D.view files.old) (D.view files.new) }
    ensures ready { result ≢ Err stop.DiskFailed → has_failed store.new ≡ false }
    ensures images { StaysOrStops store.old D.view files.old files.new
        (at_moved moment.old (folder_of store.old) next).passes }
{
    if next < *moment {
        return match refuse(alloc, &LineError::Moment) {
            Ok(told) => Ok(told),
            Err(_) => Err(Stop::Memory),
        };
    }
    match store.tick(files, next) {
        Ok(true) => {
            *moment = next;
            match tell(alloc, reload(alloc, store, net)) {
                Ok(told) => Ok(told),
                Err(_) => Err(Stop::Memory),
            }
        }
        Ok(false) => {
            *moment = next;
            Ok(tell_nothing(alloc))
        }
        Err(_) => Err(Stop::DiskFailed),
    }
}
