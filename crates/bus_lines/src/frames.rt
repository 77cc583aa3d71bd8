//! Frames that are served.
ghost use Rattle.std.specs.Prelude.{◌≡◌, [], OnOk};
ghost use Rattle.uci_tool.specs.Answers.{IsOpen};
ghost use Rattle.net_plane.specs.Network.{IsOf};
ghost use Rattle.step_net.specs.Taken.{telled_of};
ghost use Rattle.rpc_objects.specs.Passed.{StaysOrStopsIn};
ghost use Rattle.rpc_objects.specs.Kept.{StaysOn, faults_of};
ghost use Rattle.bus_lines.specs.Ended.{world_of};
ghost use Rattle.bus_lines.specs.Calling.{seen_by};
ghost use Rattle.bus_lines.specs.Cut.{FramesCut};
ghost use Rattle.bus_lines.specs.Passed.{HandedPasses, FramePasses, FramesPass};
ghost use Rattle.bus_lines.specs.Frames as spec;

use crate::callers::Callers;
use crate::calling::call_with_word;
use crate::gathered::Gathered;
use kern_model::Kernel;
use net_plane::Net;
use plane_disk::Disk;
use plane_outside::Random;
use rpc_objects::{CallStop, LocalObject};
use std::alloc::Global;
use ubus_frames::Frame;
use ubus_table::LocalCall;
use uci_store::Store;

/// Serves the frames of the client of this number of the bus, one after the other.
pub(crate) fn serve_frames<K: Kernel, D: Disk, T: Disk, R: Random>(
    alloc: Global,
    now: u64,
    callers: &mut Callers,
    store: &mut Store,
    files: &mut D,
    staged: &mut T,
    net: &mut Net,
    kernel: &mut K,
    random: &mut R,
    number: u32,
    frames: &[Frame],
) -> Result<Gathered, CallStop>
    requires open { IsOpen store.old (D.view files.old) (T.view staged.old) }
    requires told { net.old.notices ≡ [] }
    requires of { IsOf K.Kernel kernel.old net.old }
    ensures ends { let world = world_of now store.old callers.old net.old in
        spec.ServeEnds world number frames.now
        (FramesCut world number frames.now) (FramesPass world number frames.now)
        (world_of now store.new callers.new net.new)
        (seen_by (telled_of K.Kernel kernel.old kernel.new) callers.old callers.new
        (R.words random.old) (R.words random.new)
        (faults_of (D.view files.old) (D.view files.new)
        (T.view staged.old) (T.view staged.new)))
        result }
    ensures disks { StaysOn result store.old store.new
        (D.view files.old) (D.view files.new) (T.view staged.old) (T.view staged.new) }
    ensures images { StaysOrStopsIn store.old D.view files.old files.new
        (FramesPass (world_of now store.old callers.old net.old) number frames.now) }
    ensures of { IsOf K.Kernel kernel.new net.new }
    ensures calls { K.calls kernel.new ≡ K.calls kernel.old }
    ensures told { OnOk result (net.new.notices ≡ []) }
{
    let mut gathered = Gathered::new(alloc);
    let mut rest = frames;
    while let Some((frame, others)) = rest.split_first() {
        match serve_frame(
            alloc,
            now,
            callers,
            store,
            files,
            staged,
            net,
            kernel,
            random,
            number,
            frame,
            &mut gathered,
        ) {
            Ok(()) => rest = others,
            Err(stop) => return Err(stop),
        }
    }
    Ok(gathered)
}

// Serves a frame. A call that it hands out is carried out and answered.
fn serve_frame<K: Kernel, D: Disk, T: Disk, R: Random>(
    alloc: Global,
    now: u64,
    callers: &mut Callers,
    store: &mut Store,
    files: &mut D,
    staged: &mut T,
    net: &mut Net,
    kernel: &mut K,
    random: &mut R,
    number: u32,
    frame: &Frame,
    gathered: &mut Gathered,
) -> Result<(), CallStop>
    requires open { IsOpen store.old (D.view files.old) (T.view staged.old) }
    requires told { net.old.notices ≡ [] }
    requires of { IsOf K.Kernel kernel.old net.old }
    ensures ends { let world = world_of now store.old callers.old net.old in spec.StepEnds
        (spec.OneDoes world number frame.now) (spec.OneCuts world number frame.now)
        (FramePasses world number frame.now)
        (world_of now store.new callers.new net.new)
        (seen_by (telled_of K.Kernel kernel.old kernel.new) callers.old callers.new
        (R.words random.old) (R.words random.new)
        (faults_of (D.view files.old) (D.view files.new)
        (T.view staged.old) (T.view staged.new)))
        gathered.old gathered.new result }
    ensures disks { StaysOn result store.old store.new
        (D.view files.old) (D.view files.new) (T.view staged.old) (T.view staged.new) }
    ensures images { StaysOrStopsIn store.old D.view files.old files.new
        (FramePasses (world_of now store.old callers.old net.old) number frame.now) }
    ensures of { IsOf K.Kernel kernel.new net.new }
    ensures calls { K.calls kernel.new ≡ K.calls kernel.old }
    ensures told { OnOk result (net.new.notices ≡ []) }
{
    match callers.bus.serve(number, frame, &mut gathered.sent) {
        Ok(Some(call)) => answer_call(
            alloc, now, callers, store, files, staged, net, kernel, random, &call, gathered,
        ),
        Ok(None) => Ok(()),
        Err(_) => Err(CallStop::Memory),
    }
}

// Carries a call out that was handed out, and answers it, if its object is one of these.
fn answer_call<K: Kernel, D: Disk, T: Disk, R: Random>(
    alloc: Global,
    now: u64,
    callers: &mut Callers,
    store: &mut Store,
    files: &mut D,
    staged: &mut T,
    net: &mut Net,
    kernel: &mut K,
    random: &mut R,
    call: &LocalCall,
    gathered: &mut Gathered,
) -> Result<(), CallStop>
    requires open { IsOpen store.old (D.view files.old) (T.view staged.old) }
    requires told { net.old.notices ≡ [] }
    requires of { IsOf K.Kernel kernel.old net.old }
    ensures ends { let world = world_of now store.old callers.old net.old in spec.StepEnds
        (spec.HandedDoes world call.now) (spec.HandedCuts world call.now)
        (HandedPasses world call.now)
        (world_of now store.new callers.new net.new)
        (seen_by (telled_of K.Kernel kernel.old kernel.new) callers.old callers.new
        (R.words random.old) (R.words random.new)
        (faults_of (D.view files.old) (D.view files.new)
        (T.view staged.old) (T.view staged.new)))
        gathered.old gathered.new result }
    ensures disks { StaysOn result store.old store.new
        (D.view files.old) (D.view files.new) (T.view staged.old) (T.view staged.new) }
    ensures images { StaysOrStopsIn store.old D.view files.old files.new
        (HandedPasses (world_of now store.old callers.old net.old) call.now) }
    ensures of { IsOf K.Kernel kernel.new net.new }
    ensures calls { K.calls kernel.new ≡ K.calls kernel.old }
    ensures told { OnOk result (net.new.notices ≡ []) }
{
    let Some(object) = LocalObject::of_number(call.object) else {
        return Ok(());
    };
    let method = call.method.as_bytes();
    let args = call.args.as_slice();
    match call_with_word(
        alloc, now, callers, store, files, staged, net, kernel, random, object, method, args,
    ) {
        Ok(outcome) => match gathered.reply(&mut callers.bus, call, outcome) {
            Ok(()) => Ok(()),
            Err(_) => Err(CallStop::Memory),
        },
        Err(stop) => Err(stop),
    }
}
