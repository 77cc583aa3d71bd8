ghost use Rattle.std.specs.Prelude.{◌≡◌, [], Err, OnOk};
ghost use Rattle.rpc_rules.specs.Arguments.{caller_in};
ghost use Rattle.rpc_session.specs.SessionList.{SessionList};
ghost use Rattle.rpc_uci.specs.Call.{renewed};
ghost use Rattle.rpc_uci.specs.Done.{Leads};
ghost use Rattle.uci_store.specs.Store.{IsStore};
ghost use Rattle.uci_store.specs.Stops.{StopLeaves};
ghost use Rattle.uci_tool.specs.Answers.{IsOpen};
ghost use Rattle.uci_tool.specs.Folder.{folder_of};
ghost use Rattle.net_plane.specs.Network.{HasSameKernel};
ghost use Rattle.rpc_objects.specs.declared.uci_answer.CallStop.TheVariants as refusal;
ghost use Rattle.rpc_objects.specs.declared.local_object.LocalObject.TheVariants.{Uci as UciObject};
ghost use Rattle.rpc_objects.specs.Ended.{parts_of};
ghost use Rattle.rpc_objects.specs.Kept.{StaysOn, DiskRose, faults_of};
ghost use Rattle.rpc_objects.specs.Passed.{CallPasses, StopsIn};
ghost use Rattle.rpc_objects.specs.UciCall.{IsServed, ReloadsTo, UciEnds};

use crate::outcome::Outcome;
use crate::{CallStop, UciAnswer, answer_uci};
use blob_codec::Attr;
use net_plane::Net;
use plane_disk::Disk;
use rpc_session::Sessions;
use rpc_uci::serve;
use std::alloc::Global;
use step_net::{reload, tell};
use uci_store::Store;

/// Carries a call of the object `uci` out. Behind an apply and a rollback the files are loaded
/// anew.
///
/// # Errors
///
/// `DiskFailed` only where a disk failed, and `Memory`.
pub(crate) fn call_uci<D: Disk, T: Disk>(
    alloc: Global,
    now: u64,
    sessions: &mut Sessions,
    store: &mut Store,
    files: &mut D,
    staged: &mut T,
    net: &mut Net,
    method: &[u8],
    args: &[Attr],
) -> Result<Outcome, CallStop>
    requires open { IsOpen store.old (D.view files.old) (T.view staged.old) }
    requires told { net.old.notices ≡ [] }
    ensures ends { UciEnds now method.now args.now
        (parts_of sessions.old store.old net.old) (parts_of sessions.new store.new net.new)
        (faults_of (D.view files.old) (D.view files.new) (T.view staged.old) (T.view staged.new))
        result }
    ensures disks { StaysOn result store.old store.new
        (D.view files.old) (D.view files.new) (T.view staged.old) (T.view staged.new) }
    ensures images { StopsIn store.old (D.view files.old) (D.view files.new)
        (CallPasses now (parts_of sessions.old store.old net.old) method.now args.now UciObject) }
    ensures number { sessions.new.next ≡ sessions.old.next }
    ensures kernel { HasSameKernel net.old net.new }
    ensures told { OnOk result (net.new.notices ≡ []) }
{
    match serve_call(alloc, now, sessions, store, files, staged, method, args) {
        Ok(answer) => reload_after(alloc, store, net, answer),
        Err(stop) => Err(stop),
    }
}

/// Carries a call out on the store.
fn serve_call<D: Disk, T: Disk>(
    alloc: Global,
    now: u64,
    sessions: &mut Sessions,
    store: &mut Store,
    files: &mut D,
    staged: &mut T,
    method: &[u8],
    args: &[Attr],
) -> Result<UciAnswer, CallStop>
    requires open { IsOpen store.old (D.view files.old) (T.view staged.old) }
    ensures served { IsServed now sessions.old method.now args.now
        (folder_of store.old) (folder_of store.new) result }
    ensures disks { StaysOn result store.old store.new
        (D.view files.old) (D.view files.new) (T.view staged.old) (T.view staged.new) }
    ensures images { StopLeaves store.old (D.view files.old) (D.view files.new)
        (Leads sessions.old method.now args.now now store.old) }
    ensures sessions { sessions.new ≡ renewed (caller_in args.now) now sessions.old }
    ensures number { sessions.new.next ≡ sessions.old.next }
    ensures cause { result ≡ Err refusal.DiskFailed → DiskRose
        (faults_of (D.view files.old) (D.view files.new) (T.view staged.old) (T.view staged.new)) }
{
    let called = serve(alloc, sessions, store, files, staged, method, args, now);
    answer_uci(alloc, called)
}

/// Loads the files anew where the call asks for that.
fn reload_after(
    alloc: Global,
    store: &Store,
    net: &mut Net,
    answer: UciAnswer,
) -> Result<Outcome, CallStop>
    requires store { IsStore store.now }
    requires told { net.old.notices ≡ [] }
    ensures reloads { (sessions : SessionList) →
        ReloadsTo (parts_of sessions store.now net.old) answer net.old net.new result }
    ensures kernel { HasSameKernel net.old net.new }
{
    let anew = answer.reload;
    if !anew {
        return Ok(Outcome::quiet(alloc, answer.answer));
    }
    match tell(alloc, reload(alloc, store, net)) {
        Ok(told) => Ok(Outcome::of_reload(answer.answer, told)),
        Err(_) => Err(CallStop::Memory),
    }
}
