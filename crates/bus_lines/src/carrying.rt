ghost use Rattle.std.specs.Prelude.{◌≡◌, [], OnOk};
ghost use Rattle.uci_tool.specs.Answers.{IsOpen};
ghost use Rattle.net_plane.specs.Network.{IsOf};
ghost use Rattle.step_net.specs.Taken.{telled_of};
ghost use Rattle.rpc_objects.specs.Passed.{StaysOrStopsIn};
ghost use Rattle.rpc_objects.specs.Kept.{StaysOn, faults_of};
ghost use Rattle.plane_outside.specs.Supply.{supply_of};
ghost use Rattle.bus_lines.specs.CallerLine.{LineDoes};
ghost use Rattle.bus_lines.specs.Passed.{LinePasses};
ghost use Rattle.bus_lines.specs.Cut.{LineCuts};
ghost use Rattle.bus_lines.specs.Ended.{Ends, world_of};

use crate::call_line::call_method;
use crate::caller_line::CallerLine;
use crate::callers::Callers;
use crate::client_line::{client_bytes, or_memory};
use crate::handled::Handled;
use crate::told::{close_client, open_client};
use kern_model::Kernel;
use net_plane::Net;
use plane_disk::Disk;
use plane_outside::Random;
use rpc_objects::CallStop;
use std::alloc::Global;
use uci_store::Store;

/// Carries a line of a call or of a client out, which stands at this number in the script. The
/// calls of its settling are not made.
///
/// # Errors
///
/// `DiskFailed` only where a disk failed, and `Memory`.
pub fn carry_caller_line<K: Kernel, D: Disk, T: Disk, R: Random>(
    alloc: Global,
    now: u64,
    callers: &mut Callers,
    store: &mut Store,
    files: &mut D,
    staged: &mut T,
    net: &mut Net,
    kernel: &mut K,
    random: &mut R,
    number: u32,
    line: CallerLine,
) -> Result<Handled, CallStop>
    requires open { IsOpen store.old (D.view files.old) (T.view staged.old) }
    requires told { net.old.notices ≡ [] }
    requires of { IsOf K.Kernel kernel.old net.old }
    ensures ends { let world = world_of now store.old callers.old net.old in Ends
        (LineDoes world number line) (LineCuts world number line) (LinePasses world number line)
        (world_of now store.new callers.new net.new)
        (record {
          kernel = telled_of K.Kernel kernel.old kernel.new;
          supply = supply_of callers.old.spare.word (R.words random.old);
          supply_now = supply_of callers.new.spare.word (R.words random.new);
          disks = faults_of (D.view files.old) (D.view files.new)
              (T.view staged.old) (T.view staged.new);
        })
        result }
    ensures disks { StaysOn result store.old store.new
        (D.view files.old) (D.view files.new) (T.view staged.old) (T.view staged.new) }
    ensures images { StaysOrStopsIn store.old D.view files.old files.new
        (LinePasses (world_of now store.old callers.old net.old) number line) }
    ensures of { IsOf K.Kernel kernel.new net.new }
    ensures calls { K.calls kernel.new ≡ K.calls kernel.old }
    ensures told { OnOk result (net.new.notices ≡ []) }
{
    match line {
        CallerLine::Call(words) => call_method(
            alloc, now, callers, store, files, staged, net, kernel, random, number, &words,
        ),
        CallerLine::Open {
            client,
            user,
            group,
        } => or_memory(open_client(alloc, &mut callers.bus, client, &user, &group)),
        CallerLine::Bytes { client, bytes } => client_bytes(
            alloc, now, callers, store, files, staged, net, kernel, random, client, &bytes,
        ),
        CallerLine::Close { client } => or_memory(close_client(alloc, &mut callers.bus, client)),
    }
}
