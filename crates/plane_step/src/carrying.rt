ghost use Rattle.std.specs.Prelude.{◌≡◌, ◌≢◌, [], OnOk, OnErr};
ghost use Rattle.plane_words.specs.Causes.{HasCause};
ghost use Rattle.plane_words.specs.Growth.{Grows, GrowsByFront};
ghost use Rattle.net_settle.specs.Outside.{outside_of};
ghost use Rattle.net_plane.specs.Network.{IsOf};
ghost use Rattle.script_lines.specs.Lines.{line_of};
ghost use Rattle.step_net.specs.Taken.{telled_of};
ghost use Rattle.step_net.specs.Finished.{HoldsOrFailed};
ghost use Rattle.net_rules.specs.Moment.{want_of};
ghost use Rattle.uci_tool.specs.Answers.{IsOpen};
ghost use Rattle.rpc_objects.specs.Passed.{StaysOrStopsIn};
ghost use Rattle.rpc_objects.specs.Kept.{faults_of as disk_faults};
ghost use Rattle.plane_outside.specs.Supply.{supply_of};
ghost use Rattle.bus_lines.specs.Ended.{world_of};
ghost use Rattle.plane_step.specs.Plain.{IsPlain};
ghost use Rattle.plane_step.specs.Passed.{LinePasses};
ghost use Rattle.plane_step.specs.Done.{Ends};
ghost use Rattle.plane_step.specs.Kept.{StaysOn, faults_of};
ghost use Rattle.plane_step.specs.Ran.{LineEnds, TellsHalt};

use crate::Stop;
use crate::act::act;
use bus_lines::{Callers, Handled};
use kern_model::Kernel;
use net_plane::Net;
use plane_disk::Disk;
use plane_io::{Failed, Sink};
use plane_outside::Random;
use script_lines::read_line;
use std::alloc::Global;
use step_net::finish;
use uci_store::Store;
use uci_text::Line;

/// Carries a line out, and answers whether it was ok: it is acted on, then settled, and then
/// answered.
///
/// # Errors
///
/// `WriteFailed` at the first line of its text that is not written, or not wholly. `DiskFailed`
/// only where a disk failed, and `Memory` where there is none to read the line or to act on it:
/// each is written as the last line.
pub fn carry_out<K: Kernel, O: Sink, D: Disk, T: Disk, R: Random>(
    alloc: Global,
    moment: &mut u64,
    callers: &mut Callers,
    store: &mut Store,
    files: &mut D,
    staged: &mut T,
    net: &mut Net,
    line: &Line,
    kernel: &mut K,
    random: &mut R,
    out: &mut O,
) -> Result<bool, Stop>
    requires open { IsOpen store.old (D.view files.old) (T.view staged.old) }
    requires told { net.old.notices ≡ [] }
    requires of { IsOf K.Kernel kernel.old net.old }
    ensures ends { LineEnds line.now (world_of moment.old store.old callers.old net.old)
        (world_of moment.new store.new callers.new net.new)
        (faults_of (D.view files.old) (D.view files.new) (T.view staged.old) (T.view staged.new))
        (record {
          before = supply_of callers.old.spare.word (R.words random.old);
          after = supply_of callers.new.spare.word (R.words random.new);
        })
        (outside_of O.Sink K.Kernel out.old kernel.old)
        (outside_of O.Sink K.Kernel out.new kernel.new) result }
    ensures disks { StaysOn result store.old store.new
        (D.view files.old) (D.view files.new) (T.view staged.old) (T.view staged.new) }
    ensures images { StaysOrStopsIn store.old D.view files.old files.new
        (LinePasses (world_of moment.old store.old callers.old net.old) line.now) }
    ensures of { IsOf K.Kernel kernel.new net.new }
    ensures due { OnOk result (HoldsOrFailed (K.objects kernel.new) (want_of net.new.inputs)
        (K.faults kernel.old) (K.faults kernel.new)) }
    ensures told { OnOk result (net.new.notices ≡ []) }
    ensures random { IsPlain (line_of line.now.words) → random.new ≡ random.old }
{
    match read_and_act(
        alloc, moment, callers, store, files, staged, net, line, kernel, random,
    ) {
        Ok(handled) => {
            let Ok(()) = tell_sends(&handled, out) else {
                return Err(Stop::WriteFailed);
            };
            match finish(net, &handled.told, kernel, out) {
                Ok(is_ok) => Ok(is_ok),
                Err(_) => Err(Stop::WriteFailed),
            }
        }
        Err(stop) => {
            tell_halt(stop, out);
            Err(stop)
        }
    }
}

// Writes the lines of what is sent to clients, where there are any.
fn tell_sends<O: Sink>(handled: &Handled, out: &mut O) -> Result<(), Failed>
    ensures written { OnOk result (Grows (O.held out.old) (O.held out.new) handled.now.sent) }
    ensures in_part { OnErr result
        (GrowsByFront (O.held out.old) (O.held out.new) handled.now.sent) }
    ensures some { OnErr result (handled.now.sent ≢ []) }
    ensures cause { HasCause (O.faults out.old) (O.faults out.new) result }
{
    if handled.sent.as_bytes().is_empty() {
        return Ok(());
    }
    out.write(handled.sent.as_bytes())
}

// Tells why the script ends in this line. Where that fails, nothing is done about it.
fn tell_halt<O: Sink>(stop: Stop, out: &mut O)
    ensures { TellsHalt stop (O.held out.old) (O.held out.new)
        (O.faults out.old) (O.faults out.new) }
{
    match stop {
        Stop::DiskFailed => {
            let _ = out.write(b"error 30 disk\n");
        }
        Stop::Memory => {
            let _ = out.write(b"error 8 memory\n");
        }
        Stop::WriteFailed => {}
    }
}

// Reads a line and acts on it.
fn read_and_act<K: Kernel, D: Disk, T: Disk, R: Random>(
    alloc: Global,
    moment: &mut u64,
    callers: &mut Callers,
    store: &mut Store,
    files: &mut D,
    staged: &mut T,
    net: &mut Net,
    line: &Line,
    kernel: &mut K,
    random: &mut R,
) -> Result<Handled, Stop>
    requires open { IsOpen store.old (D.view files.old) (T.view staged.old) }
    requires told { net.old.notices ≡ [] }
    requires of { IsOf K.Kernel kernel.old net.old }
    ensures ends { Ends (world_of moment.old store.old callers.old net.old) line.now.line
        (line_of line.now.words) (world_of moment.new store.new callers.new net.new)
        (record {
          kernel = telled_of K.Kernel kernel.old kernel.new;
          supply = supply_of callers.old.spare.word (R.words random.old);
          supply_now = supply_of callers.new.spare.word (R.words random.new);
          disks = disk_faults (D.view files.old) (D.view files.new)
              (T.view staged.old) (T.view staged.new);
        })
        result }
    ensures disks { StaysOn result store.old store.new
        (D.view files.old) (D.view files.new) (T.view staged.old) (T.view staged.new) }
    ensures images { StaysOrStopsIn store.old D.view files.old files.new
        (LinePasses (world_of moment.old store.old callers.old net.old) line.now) }
    ensures of { IsOf K.Kernel kernel.new net.new }
    ensures calls { K.calls kernel.new ≡ K.calls kernel.old }
    ensures told { OnOk result (net.new.notices ≡ []) }
    ensures random { IsPlain (line_of line.now.words) → random.new ≡ random.old }
{
    let Ok(read) = read_line(alloc, line.words.as_slice()) else {
        return Err(Stop::Memory);
    };
    act(
        alloc, moment, callers, store, files, staged, net, line.line, read, kernel, random,
    )
}
