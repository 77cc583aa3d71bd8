//! The script of a run, carried out.
ghost use Rattle.std.specs.Prelude.{◌≡◌, []};
ghost use Rattle.net_rules.specs.Moment.{want_of};
ghost use Rattle.net_settle.specs.Outside.{outside_of};
ghost use Rattle.net_plane.specs.Network.{IsOf};
ghost use Rattle.uci_tool.specs.Answers.{IsOpen};
ghost use Rattle.uci_tool.specs.Ends.{Stream, source_of};
ghost use Rattle.plane_words.specs.Causes.{Rose};
ghost use Rattle.rpc_objects.specs.Passed.{StaysOrStopsIn};
ghost use Rattle.plane_outside.specs.Supply.{supply_of};
ghost use Rattle.bus_lines.specs.Ended.{world_of};
ghost use Rattle.plane_step.specs.Plain.{ArePlain};
ghost use Rattle.plane_step.specs.ScriptPasses.{ScriptPasses};
ghost use Rattle.plane_step.specs.Kept.{faults_of};
ghost use Rattle.plane_run.specs.Script.{StaysUnlessCalled};
ghost use Rattle.plane_run.specs.Run.{GoesOn, IsKernelFailed};
ghost use Rattle.plane_run.specs.Parts.{AnswersBad, LinesEnd, KeepsDisks};
ghost use Rattle.plane_run.specs.Stops.{ScriptStops};

use crate::ending::{end_of, end_of_stop};
use crate::run_end::RunEnd;
use crate::script::{Script, read_script};
use bus_lines::Callers;
use kern_model::Kernel;
use net_plane::Net;
use plane_disk::Disk;
use plane_io::{Sink, Source};
use plane_outside::Random;
use plane_step::run_lines;
use script_lines::{LineError, append_error_line};
use std::alloc::Global;
use uci_store::Store;
use uci_text::Line;

/// Reads the script to its end, and then carries it out.
pub(crate) fn carry_script<S: Source, O: Sink, D: Disk, T: Disk, K: Kernel, R: Random>(
    alloc: Global,
    now: u64,
    callers: &mut Callers,
    store: &mut Store,
    net: &mut Net,
    input: &mut S,
    out: &mut O,
    files: &mut D,
    staged: &mut T,
    kernel: &mut K,
    random: &mut R,
) -> RunEnd
    requires open { IsOpen store.old (D.view files.old) (T.view staged.old) }
    requires told { net.old.notices ≡ [] }
    requires of { IsOf K.Kernel kernel.old net.old }
    ensures goes { let start = world_of now store.old callers.old net.old in
        let words = supply_of callers.old.spare.word (R.words random.old) in GoesOn start (record {
          words = words;
          input = source_of S.Source input.old input.new;
          disks = faults_of (D.view files.old) (D.view files.new)
              (T.view staged.old) (T.view staged.new);
          files_now = D.view files.new;
          staged_now = T.view staged.new;
          images = λ lines. StaysOrStopsIn store.old D.view files.old files.new
              (ScriptPasses start words lines);
          between = outside_of O.Sink K.Kernel out.old kernel.old;
          after = outside_of O.Sink K.Kernel out.new kernel.new;
        }) result }
    ensures due { K.objects kernel.old ≡ want_of net.old.inputs → IsKernelFailed result →
        Rose (K.faults kernel.old) (K.faults kernel.new) }
    ensures disks { KeepsDisks (D.view files.old) (D.view files.new)
        (T.view staged.old) (T.view staged.new) }
    ensures images { ScriptStops (world_of now store.old callers.old net.old)
        (supply_of callers.old.spare.word (R.words random.old)) store.old
        (source_of S.Source input.old input.new) D.view files.old files.new }
    ensures random { StaysUnlessCalled (source_of S.Source input.old input.new)
        (random.new ≡ random.old) }
{
    match read_script(alloc, input) {
        Ok(Script::Lines { lines }) => carry_lines(
            alloc,
            now,
            callers,
            store,
            net,
            lines.as_slice(),
            out,
            files,
            staged,
            kernel,
            random,
        ),
        Ok(Script::Bad { line }) => match answer_bad(alloc, line, out) {
            Ok(()) => end_of(false, net.due()),
            Err(end) => end,
        },
        Err(end) => end,
    }
}

// Carries the lines out.
fn carry_lines<O: Sink, D: Disk, T: Disk, K: Kernel, R: Random>(
    alloc: Global,
    now: u64,
    callers: &mut Callers,
    store: &mut Store,
    net: &mut Net,
    lines: &[Line],
    out: &mut O,
    files: &mut D,
    staged: &mut T,
    kernel: &mut K,
    random: &mut R,
) -> RunEnd
    requires open { IsOpen store.old (D.view files.old) (T.view staged.old) }
    requires told { net.old.notices ≡ [] }
    requires of { IsOf K.Kernel kernel.old net.old }
    ensures ends { (input : Stream) → let start = world_of now store.old callers.old net.old in
        let words = supply_of callers.old.spare.word (R.words random.old) in
        LinesEnd start lines.now (record {
          words = words;
          input = input;
          disks = faults_of (D.view files.old) (D.view files.new)
              (T.view staged.old) (T.view staged.new);
          files_now = D.view files.new;
          staged_now = T.view staged.new;
          images = λ front. StaysOrStopsIn store.old D.view files.old files.new
              (ScriptPasses start words front);
          between = outside_of O.Sink K.Kernel out.old kernel.old;
          after = outside_of O.Sink K.Kernel out.new kernel.new;
        }) result }
    ensures due { K.objects kernel.old ≡ want_of net.old.inputs → IsKernelFailed result →
        Rose (K.faults kernel.old) (K.faults kernel.new) }
    ensures disks { KeepsDisks (D.view files.old) (D.view files.new)
        (T.view staged.old) (T.view staged.new) }
    ensures images { StaysOrStopsIn store.old D.view files.old files.new
        (ScriptPasses (world_of now store.old callers.old net.old)
        (supply_of callers.old.spare.word (R.words random.old)) lines.now) }
    ensures random { ArePlain lines.now → random.new ≡ random.old }
{
    let mut moment = now;
    match run_lines(
        alloc,
        &mut moment,
        callers,
        store,
        files,
        staged,
        net,
        lines,
        kernel,
        random,
        out,
    ) {
        Ok(is_ok) => end_of(is_ok, net.due()),
        Err(stop) => end_of_stop(stop),
    }
}

// The one answer to a script that has no lines.
fn answer_bad<O: Sink>(alloc: Global, line: u32, out: &mut O) -> Result<(), RunEnd>
    ensures { AnswersBad line (O.held out.old) (O.held out.new)
        (O.faults out.old) (O.faults out.new) result }
{
    let mut text = Vec::new(alloc);
    let Ok(()) = append_error_line(&LineError::BadLine { line }, &mut text) else {
        return Err(RunEnd::OutOfMemory);
    };
    match out.write(&text) {
        Ok(()) => Ok(()),
        Err(_) => Err(RunEnd::WriteFailed),
    }
}
