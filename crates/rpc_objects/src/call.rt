ghost use Rattle.std.specs.Prelude.{◌≡◌, ◌<◌, ◌^◌, ◌+◌, ◌≤◌, [], OnOk};
ghost use Rattle.uci_tool.specs.Answers.{IsOpen};
ghost use Rattle.net_plane.specs.Network.{IsOf};
ghost use Rattle.step_net.specs.Taken.{telled_of};
ghost use Rattle.rpc_objects.specs.Passed.{CallPasses, StaysOrStopsIn};
ghost use Rattle.rpc_objects.specs.Kept.{StaysOn, faults_of};
ghost use Rattle.rpc_objects.specs.Ended.{Ends, parts_of};

use crate::local_object::LocalObject;
use crate::outcome::Outcome;
use crate::uci_call::call_uci;
use crate::{CallStop, answer_session};
use blob_codec::Attr;
use kern_model::Kernel;
use net_plane::Net;
use plane_disk::Disk;
use rpc_network::call_network;
use rpc_session::Sessions;
use std::alloc::Global;
use uci_store::Store;

/// Carries a call of a local object out, at this moment and with this random word.
///
/// # Errors
///
/// `DiskFailed` only where a disk failed, and `Memory`.
pub fn call_object<K: Kernel, D: Disk, T: Disk>(
    alloc: Global,
    now: u64,
    word: u64,
    sessions: &mut Sessions,
    store: &mut Store,
    files: &mut D,
    staged: &mut T,
    net: &mut Net,
    kernel: &mut K,
    object: LocalObject,
    method: &[u8],
    args: &[Attr],
) -> Result<Outcome, CallStop>
    requires number { sessions.old.next < 2 ^ 63 }
    requires open { IsOpen store.old (D.view files.old) (T.view staged.old) }
    requires told { net.old.notices ≡ [] }
    requires of { IsOf K.Kernel kernel.old net.old }
    ensures ends { Ends
        (record { now = now; word = word; object = object; method = method.now; args = args.now })
        (parts_of sessions.old store.old net.old) (parts_of sessions.new store.new net.new)
        (telled_of K.Kernel kernel.old kernel.new)
        (faults_of (D.view files.old) (D.view files.new) (T.view staged.old) (T.view staged.new))
        result }
    ensures disks { StaysOn result store.old store.new
        (D.view files.old) (D.view files.new) (T.view staged.old) (T.view staged.new) }
    ensures images { StaysOrStopsIn store.old D.view files.old files.new
        (CallPasses now (parts_of sessions.old store.old net.old) method.now args.now object) }
    ensures number { sessions.new.next ≤ sessions.old.next + 1 }
    ensures of { IsOf K.Kernel kernel.new net.new }
    ensures calls { K.calls kernel.new ≡ K.calls kernel.old }
    ensures told { OnOk result (net.new.notices ≡ []) }
{
    match object {
        LocalObject::Session => {
            match answer_session(alloc, sessions, store, method, args, now, word) {
                Ok(told) => Ok(Outcome::of_session(alloc, told)),
                Err(_) => Err(CallStop::Memory),
            }
        }
        LocalObject::Uci => call_uci(
            alloc, now, sessions, store, files, staged, net, method, args,
        ),
        LocalObject::Network(network) => {
            match call_network(alloc, store, net, kernel, network, method, args) {
                Ok(told) => Ok(Outcome::of_network(told)),
                Err(_) => Err(CallStop::Memory),
            }
        }
    }
}
