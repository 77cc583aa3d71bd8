ghost use Rattle.std.specs.Prelude.{◌≡◌, [], OnOk};
ghost use Rattle.net_rules.specs.Moment.{want_of};
ghost use Rattle.net_settle.specs.Outside.{outside_of};
ghost use Rattle.step_net.specs.Finished.{HoldsOrFailed};
ghost use Rattle.net_plane.specs.Network.{IsOf};
ghost use Rattle.uci_tool.specs.Answers.{IsOpen};
ghost use Rattle.rpc_objects.specs.Passed.{StaysOrStopsIn};
ghost use Rattle.plane_outside.specs.Supply.{supply_of};
ghost use Rattle.bus_lines.specs.Ended.{world_of};
ghost use Rattle.plane_step.specs.Plain.{ArePlain};
ghost use Rattle.plane_step.specs.ScriptPasses.{ScriptPasses};
ghost use Rattle.plane_step.specs.Kept.{StaysOn, faults_of};
ghost use Rattle.plane_step.specs.Ran.{ScriptEnds};

use crate::Stop;
use crate::carrying::carry_out;
use bus_lines::Callers;
use kern_model::Kernel;
use net_plane::Net;
use plane_disk::Disk;
use plane_io::Sink;
use plane_outside::Random;
use std::alloc::Global;
use uci_store::Store;
use uci_text::Line;

/// Carries the lines of a script out, one after the other, and answers whether every one was ok.
///
/// # Errors
///
/// Those of [`carry_out`], at the first line that has one.
pub fn run_lines<K: Kernel, O: Sink, D: Disk, T: Disk, R: Random>(
    alloc: Global,
    moment: &mut u64,
    callers: &mut Callers,
    store: &mut Store,
    files: &mut D,
    staged: &mut T,
    net: &mut Net,
    lines: &[Line],
    kernel: &mut K,
    random: &mut R,
    out: &mut O,
) -> Result<bool, Stop>
    requires open { IsOpen store.old (D.view files.old) (T.view staged.old) }
    requires told { net.old.notices ≡ [] }
    requires of { IsOf K.Kernel kernel.old net.old }
    ensures ends { let start = world_of moment.old store.old callers.old net.old in
        let supply = supply_of callers.old.spare.word (R.words random.old) in
        ScriptEnds start lines.now (world_of moment.new store.new callers.new net.new)
        (faults_of (D.view files.old) (D.view files.new) (T.view staged.old) (T.view staged.new))
        (record {
          before = supply;
          after = supply_of callers.new.spare.word (R.words random.new);
        })
        (λ front. StaysOrStopsIn store.old D.view files.old files.new
        (ScriptPasses start supply front))
        (outside_of O.Sink K.Kernel out.old kernel.old)
        (outside_of O.Sink K.Kernel out.new kernel.new) result }
    ensures disks { StaysOn result store.old store.new
        (D.view files.old) (D.view files.new) (T.view staged.old) (T.view staged.new) }
    ensures images { StaysOrStopsIn store.old D.view files.old files.new
        (ScriptPasses (world_of moment.old store.old callers.old net.old)
        (supply_of callers.old.spare.word (R.words random.old)) lines.now) }
    ensures of { IsOf K.Kernel kernel.new net.new }
    ensures due { K.objects kernel.old ≡ want_of net.old.inputs → OnOk result
        (HoldsOrFailed (K.objects kernel.new) (want_of net.new.inputs)
        (K.faults kernel.old) (K.faults kernel.new)) }
    ensures random { ArePlain lines.now → random.new ≡ random.old }
{
    let mut is_ok = true;
    let mut rest = lines;
    while let Some((line, others)) = rest.split_first() {
        match carry_out(
            alloc, moment, callers, store, files, staged, net, line, kernel, random, out,
        ) {
            Ok(fine) => is_ok &= fine,
            Err(stop) => return Err(stop),
        }
        rest = others;
    }
    Ok(is_ok)
}
