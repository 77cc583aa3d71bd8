//! Lines that call a method of a local object.
ghost use Rattle.std.specs.Prelude.{◌≡◌, [], Ok, OnOk, IfOk};
ghost use Rattle.uci_tool.specs.Answers.{IsOpen};
ghost use Rattle.net_plane.specs.Network.{IsOf};
ghost use Rattle.step_net.specs.Taken.{telled_of};
ghost use Rattle.call_texts.specs.Arguments.{arguments_of};
ghost use Rattle.rpc_objects.specs.Passed.{StaysOrStopsIn};
ghost use Rattle.rpc_objects.specs.Kept.{StaysOn, faults_of};
ghost use Rattle.bus_lines.specs.Ended.{Ends, world_of};
ghost use Rattle.bus_lines.specs.Calling.{CallEnds, seen_by};
ghost use Rattle.bus_lines.specs.Cut.{CallLineCuts};
ghost use Rattle.bus_lines.specs.Passed.{CallLinePasses};
ghost use Rattle.bus_lines.specs.CallLine as spec;

use crate::caller_line::CallWords;
use crate::callers::Callers;
use crate::calling::call_with_word;
use crate::client_line::or_memory;
use crate::handled::Handled;
use crate::replied::{quiet, refuse_line, tell_outcome};
use blob_codec::Attr;
use call_texts::{name_session, read_arguments};
use kern_model::Kernel;
use net_plane::Net;
use plane_disk::Disk;
use plane_io::Memory;
use plane_outside::Random;
use rpc_objects::{CallStop, LocalAnswer, LocalObject, Outcome};
use rpc_session::{Grant, Sessions};
use script_lines::LineError;
use sqlite_items::Items;
use std::alloc::Global;
use uci_store::Store;

/// A method is called, in the line at this number of the script.
pub(crate) fn call_method<K: Kernel, D: Disk, T: Disk, R: Random>(
    alloc: Global,
    now: u64,
    callers: &mut Callers,
    store: &mut Store,
    files: &mut D,
    staged: &mut T,
    net: &mut Net,
    kernel: &mut K,
    random: &mut R,
    number: u32,
    words: &CallWords,
) -> Result<Handled, CallStop>
    requires open { IsOpen store.old (D.view files.old) (T.view staged.old) }
    requires told { net.old.notices ≡ [] }
    requires of { IsOf K.Kernel kernel.old net.old }
    ensures ends { let world = world_of now store.old callers.old net.old in Ends
        (spec.CallLineDoes world number words.now) (CallLineCuts world number words.now)
        (CallLinePasses world number words.now)
        (world_of now store.new callers.new net.new)
        (seen_by (telled_of K.Kernel kernel.old kernel.new) callers.old callers.new
        (R.words random.old) (R.words random.new)
        (faults_of (D.view files.old) (D.view files.new)
        (T.view staged.old) (T.view staged.new)))
        result }
    ensures disks { StaysOn result store.old store.new
        (D.view files.old) (D.view files.new) (T.view staged.old) (T.view staged.new) }
    ensures images { StaysOrStopsIn store.old D.view files.old files.new
        (CallLinePasses (world_of now store.old callers.old net.old) number words.now) }
    ensures of { IsOf K.Kernel kernel.new net.new }
    ensures calls { K.calls kernel.new ≡ K.calls kernel.old }
    ensures told { OnOk result (net.new.notices ≡ []) }
{
    match read_arguments(alloc, number, &words.json) {
        Ok(args) => match call_for(
            alloc, now, callers, store, files, staged, net, kernel, random, number, words, args,
        ) {
            Ok(outcome) => or_memory(tell_outcome(alloc, outcome)),
            Err(stop) => Err(stop),
        },
        Err(error) => match error {
            LineError::Memory => Err(CallStop::Memory),
            _ => or_memory(refuse_line(alloc, &error)),
        },
    }
}

// Calls a method for a session, or for none. The text of the arguments was read as these.
fn call_for<K: Kernel, D: Disk, T: Disk, R: Random>(
    alloc: Global,
    now: u64,
    callers: &mut Callers,
    store: &mut Store,
    files: &mut D,
    staged: &mut T,
    net: &mut Net,
    kernel: &mut K,
    random: &mut R,
    number: u32,
    words: &CallWords,
    args: Items<Attr>,
) -> Result<Outcome, CallStop>
    requires open { IsOpen store.old (D.view files.old) (T.view staged.old) }
    requires told { net.old.notices ≡ [] }
    requires of { IsOf K.Kernel kernel.old net.old }
    requires read { arguments_of number words.now.json ≡ Ok args }
    ensures ends { let world = world_of now store.old callers.old net.old in CallEnds
        (spec.ForDoes world words.now args) (CallLineCuts world number words.now)
        (CallLinePasses world number words.now)
        world (world_of now store.new callers.new net.new)
        (seen_by (telled_of K.Kernel kernel.old kernel.new) callers.old callers.new
        (R.words random.old) (R.words random.new)
        (faults_of (D.view files.old) (D.view files.new)
        (T.view staged.old) (T.view staged.new)))
        result }
    ensures disks { StaysOn result store.old store.new
        (D.view files.old) (D.view files.new) (T.view staged.old) (T.view staged.new) }
    ensures images { StaysOrStopsIn store.old D.view files.old files.new
        (CallLinePasses (world_of now store.old callers.old net.old) number words.now) }
    ensures of { IsOf K.Kernel kernel.new net.new }
    ensures calls { K.calls kernel.new ≡ K.calls kernel.old }
    ensures told { OnOk result (net.new.notices ≡ []) }
{
    match admit(alloc, now, &mut callers.sessions, words, args) {
        Ok(Ok(args)) => {
            let Some(object) = LocalObject::of_path(words.path.as_bytes()) else {
                return Ok(quiet(alloc, LocalAnswer::refused(4)));
            };
            let method = words.method.as_bytes();
            let args = args.as_slice();
            call_with_word(
                alloc, now, callers, store, files, staged, net, kernel, random, object, method,
                args,
            )
        }
        Ok(Err(answer)) => Ok(quiet(alloc, answer)),
        Err(_) => Err(CallStop::Memory),
    }
}

// Whether the session of a line may call, and the arguments with it then, or what is answered.
fn admit(
    alloc: Global,
    now: u64,
    sessions: &mut Sessions,
    words: &CallWords,
    args: Items<Attr>,
) -> Result<Result<Items<Attr>, LocalAnswer>, Memory>
    ensures { IfOk result (spec.Admits now sessions.old (spec.call_with words.now args)
        words.now.session sessions.new) }
{
    let Some(session) = words.session else {
        return Ok(Ok(args));
    };
    let Ok(()) = sessions.used(session, now) else {
        return Ok(Err(LocalAnswer::refused(4)));
    };
    let grant = Grant::of(
        alloc,
        b"ubus",
        words.path.as_bytes(),
        words.method.as_bytes(),
    )?;
    match sessions.allowed(session, &grant, now) {
        Ok(()) => Ok(Ok(name_session(alloc, args, session)?)),
        Err(_) => Ok(Err(LocalAnswer::denied(alloc, &grant)?)),
    }
}
