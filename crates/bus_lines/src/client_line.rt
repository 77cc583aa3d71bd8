//! Lines of bytes that a client sends.
ghost use Rattle.std.specs.Prelude.{◌≡◌, [], OnOk};
ghost use Rattle.uci_tool.specs.Answers.{IsOpen};
ghost use Rattle.net_plane.specs.Network.{IsOf};
ghost use Rattle.step_net.specs.Taken.{telled_of};
ghost use Rattle.rpc_objects.specs.Passed.{StaysOrStopsIn};
ghost use Rattle.rpc_objects.specs.Kept.{StaysOn, faults_of};
ghost use Rattle.bus_lines.specs.Ended.{Ends, world_of};
ghost use Rattle.bus_lines.specs.Calling.{seen_by};
ghost use Rattle.bus_lines.specs.Cut.{BytesCut, FramesCut};
ghost use Rattle.bus_lines.specs.Passed.{BytesPass, FramesPass};
ghost use Rattle.bus_lines.specs.Frames.{FedDoes};
ghost use Rattle.bus_lines.specs.ClientLine as spec;

use crate::callers::Callers;
use crate::frames::serve_frames;
use crate::handled::Handled;
use crate::told::{end_bytes, refuse_client};
use bus_clients::{ClientError, Fed};
use kern_model::Kernel;
use net_plane::Net;
use plane_disk::Disk;
use plane_io::{Memory, Text};
use plane_outside::Random;
use rpc_objects::CallStop;
use std::alloc::Global;
use uci_store::Store;

/// A client sends bytes: the frames that they complete are served, and then a fault behind them, if
/// there is one.
pub(crate) fn client_bytes<K: Kernel, D: Disk, T: Disk, R: Random>(
    alloc: Global,
    now: u64,
    callers: &mut Callers,
    store: &mut Store,
    files: &mut D,
    staged: &mut T,
    net: &mut Net,
    kernel: &mut K,
    random: &mut R,
    client: u32,
    bytes: &Text,
) -> Result<Handled, CallStop>
    requires open { IsOpen store.old (D.view files.old) (T.view staged.old) }
    requires told { net.old.notices ≡ [] }
    requires of { IsOf K.Kernel kernel.old net.old }
    ensures ends { let world = world_of now store.old callers.old net.old in Ends
        (spec.BytesDo world client bytes.now) (BytesCut world client bytes.now)
        (BytesPass world client bytes.now)
        (world_of now store.new callers.new net.new)
        (seen_by (telled_of K.Kernel kernel.old kernel.new) callers.old callers.new
        (R.words random.old) (R.words random.new)
        (faults_of (D.view files.old) (D.view files.new)
        (T.view staged.old) (T.view staged.new)))
        result }
    ensures disks { StaysOn result store.old store.new
        (D.view files.old) (D.view files.new) (T.view staged.old) (T.view staged.new) }
    ensures images { StaysOrStopsIn store.old D.view files.old files.new
        (BytesPass (world_of now store.old callers.old net.old) client bytes.now) }
    ensures of { IsOf K.Kernel kernel.new net.new }
    ensures calls { K.calls kernel.new ≡ K.calls kernel.old }
    ensures told { OnOk result (net.new.notices ≡ []) }
{
    match callers.bus.feed(client, bytes.as_bytes()) {
        Ok(fed) => serve_fed(
            alloc, now, callers, store, files, staged, net, kernel, random, client, fed,
        ),
        Err(error) => or_memory(refuse_client(alloc, error)),
    }
}

// Serves what a client has sent.
fn serve_fed<K: Kernel, D: Disk, T: Disk, R: Random>(
    alloc: Global,
    now: u64,
    callers: &mut Callers,
    store: &mut Store,
    files: &mut D,
    staged: &mut T,
    net: &mut Net,
    kernel: &mut K,
    random: &mut R,
    client: u32,
    fed: Fed,
) -> Result<Handled, CallStop>
    requires open { IsOpen store.old (D.view files.old) (T.view staged.old) }
    requires told { net.old.notices ≡ [] }
    requires of { IsOf K.Kernel kernel.old net.old }
    ensures ends { let world = world_of now store.old callers.old net.old in Ends
        (FedDoes world client fed) (FramesCut world fed.number fed.frames)
        (FramesPass world fed.number fed.frames)
        (world_of now store.new callers.new net.new)
        (seen_by (telled_of K.Kernel kernel.old kernel.new) callers.old callers.new
        (R.words random.old) (R.words random.new)
        (faults_of (D.view files.old) (D.view files.new)
        (T.view staged.old) (T.view staged.new)))
        result }
    ensures disks { StaysOn result store.old store.new
        (D.view files.old) (D.view files.new) (T.view staged.old) (T.view staged.new) }
    ensures images { StaysOrStopsIn store.old D.view files.old files.new
        (FramesPass (world_of now store.old callers.old net.old) fed.number fed.frames) }
    ensures of { IsOf K.Kernel kernel.new net.new }
    ensures calls { K.calls kernel.new ≡ K.calls kernel.old }
    ensures told { OnOk result (net.new.notices ≡ []) }
{
    let Fed {
        number,
        frames,
        fault,
    } = fed;
    let frames = frames.as_slice();
    match serve_frames(
        alloc, now, callers, store, files, staged, net, kernel, random, number, frames,
    ) {
        Ok(gathered) => or_memory(end_bytes(alloc, &mut callers.bus, client, fault, gathered)),
        Err(stop) => Err(stop),
    }
}

/// Want of memory stops the line.
pub(crate) fn or_memory(told: Result<Handled, Memory>) -> Result<Handled, CallStop>
    ensures { result ≡ spec.or_memory told }
{
    match told {
        Ok(told) => Ok(told),
        Err(_) => Err(CallStop::Memory),
    }
}
