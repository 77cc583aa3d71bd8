//! Calls with the next random word.
ghost use Rattle.std.specs.Prelude.{◌≡◌, [], OnOk};
ghost use Rattle.uci_tool.specs.Answers.{IsOpen};
ghost use Rattle.net_plane.specs.Network.{IsOf};
ghost use Rattle.step_net.specs.Taken.{telled_of};
ghost use Rattle.rpc_objects.specs.Passed.{StaysOrStopsIn};
ghost use Rattle.rpc_objects.specs.Kept.{StaysOn, faults_of};
ghost use Rattle.bus_lines.specs.Ended.{world_of};
ghost use Rattle.bus_lines.specs.Calling as spec;

use crate::callers::Callers;
use blob_codec::Attr;
use kern_model::Kernel;
use net_plane::Net;
use plane_disk::Disk;
use plane_outside::Random;
use rpc_objects::{CallStop, LocalObject, Outcome, call_object};
use std::alloc::Global;
use uci_store::Store;

/// A call may make a session only where its number is below this one.
const END_OF_NUMBERS: u64 = 9_223_372_036_854_775_808;

/// Calls a method of an object with the next random word, which a call uses up that makes a
/// session.
pub(crate) fn call_with_word<K: Kernel, D: Disk, T: Disk, R: Random>(
    alloc: Global,
    now: u64,
    callers: &mut Callers,
    store: &mut Store,
    files: &mut D,
    staged: &mut T,
    net: &mut Net,
    kernel: &mut K,
    random: &mut R,
    object: LocalObject,
    method: &[u8],
    args: &[Attr],
) -> Result<Outcome, CallStop>
    requires open { IsOpen store.old (D.view files.old) (T.view staged.old) }
    requires told { net.old.notices ≡ [] }
    requires of { IsOf K.Kernel kernel.old net.old }
    ensures ends { let world = world_of now store.old callers.old net.old in spec.CallEnds
        (spec.ObjectDoes world object method.now args.now)
        (spec.ObjectCuts world object method.now args.now)
        (spec.ObjectPasses world object method.now args.now)
        world (world_of now store.new callers.new net.new)
        (spec.seen_by (telled_of K.Kernel kernel.old kernel.new) callers.old callers.new
        (R.words random.old) (R.words random.new)
        (faults_of (D.view files.old) (D.view files.new)
        (T.view staged.old) (T.view staged.new)))
        result }
    ensures disks { StaysOn result store.old store.new
        (D.view files.old) (D.view files.new) (T.view staged.old) (T.view staged.new) }
    ensures images { StaysOrStopsIn store.old D.view files.old files.new (spec.ObjectPasses
        (world_of now store.old callers.old net.old) object method.now args.now) }
    ensures of { IsOf K.Kernel kernel.new net.new }
    ensures calls { K.calls kernel.new ≡ K.calls kernel.old }
    ensures told { OnOk result (net.new.notices ≡ []) }
{
    if callers.sessions.next_number() >= END_OF_NUMBERS {
        return Err(CallStop::Memory);
    }
    let word = callers.spare.first(random);
    let called = call_object(
        alloc,
        now,
        word,
        &mut callers.sessions,
        store,
        files,
        staged,
        net,
        kernel,
        object,
        method,
        args,
    );
    match called {
        Ok(outcome) => {
            callers.spare.use_up(outcome.has_created);
            Ok(outcome)
        }
        Err(stop) => Err(stop),
    }
}
