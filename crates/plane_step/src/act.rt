ghost use Rattle.std.specs.Prelude.{◌≡◌, [], Some, OnOk};
ghost use Rattle.net_plane.specs.Network.{IsOf};
ghost use Rattle.step_net.specs.Taken.{telled_of};
ghost use Rattle.uci_tool.specs.Answers.{IsOpen};
ghost use Rattle.script_lines.specs.declared.script_line.ScriptLine.TheVariants.{At as AtLine};
ghost use Rattle.rpc_objects.specs.Passed.{StaysOrStopsIn};
ghost use Rattle.rpc_objects.specs.Kept.{faults_of as disk_faults};
ghost use Rattle.plane_outside.specs.Supply.{Supply, supply_of};
ghost use Rattle.bus_lines.specs.declared.callers.Callers.{Callers as CallersAre};
ghost use Rattle.bus_lines.specs.Ended.{world_of};
ghost use Rattle.plane_step.specs.Plain.{IsPlain};
ghost use Rattle.plane_step.specs.Kept.{StaysOn};
ghost use Rattle.plane_step.specs.Passed.{Passes, PlainPasses};
ghost use Rattle.plane_step.specs.Done as spec;
ghost use Rattle.plane_step.specs.Done.{Ends, PlainEnds};

use crate::expiry::expire;
use crate::{Stop, act_on};
use bus_lines::{CallWords, CallerLine, Callers, Handled, carry_caller_line};
use kern_model::Kernel;
use net_plane::Net;
use plane_disk::Disk;
use plane_io::Text;
use plane_outside::Random;
use rpc_objects::CallStop;
use script_lines::ScriptLine;
use std::alloc::Global;
use uci_store::Store;

/// Acts on what a line asks for, which stands at this number in the script. The calls of its
/// settling are not made.
pub(crate) fn act<K: Kernel, D: Disk, T: Disk, R: Random>(
    alloc: Global,
    moment: &mut u64,
    callers: &mut Callers,
    store: &mut Store,
    files: &mut D,
    staged: &mut T,
    net: &mut Net,
    number: u32,
    line: Option<ScriptLine>,
    kernel: &mut K,
    random: &mut R,
) -> Result<Handled, Stop>
    requires open { IsOpen store.old (D.view files.old) (T.view staged.old) }
    requires told { net.old.notices ≡ [] }
    requires of { IsOf K.Kernel kernel.old net.old }
    ensures ends { Ends (world_of moment.old store.old callers.old net.old) number line
        (world_of moment.new store.new callers.new net.new)
        (record {
          kernel = telled_of K.Kernel kernel.old kernel.new;
          supply = supply_of callers.old.spare.word (R.words random.old);
          supply_now = supply_of callers.new.spare.word (R.words random.new);
          disks = disk_faults (D.view files.old) (D.view files.new)
              (T.view staged.old) (T.view staged.new);
        })
        result }
    ensures disks { StaysOn result store.old store.new
        (D.view files.old) (D.view files.new) (T.view staged.old) (T.view staged.new) }
    ensures images { StaysOrStopsIn store.old D.view files.old files.new
        (Passes (world_of moment.old store.old callers.old net.old) number line) }
    ensures of { IsOf K.Kernel kernel.new net.new }
    ensures calls { K.calls kernel.new ≡ K.calls kernel.old }
    ensures told { OnOk result (net.new.notices ≡ []) }
    ensures random { IsPlain line → random.new ≡ random.old }
{
    match who_asks(line) {
        Asking::Moment(next) => go_to(
            alloc, moment, callers, store, files, staged, net, number, next, kernel,
        ),
        Asking::Caller(asked) => {
            let now = *moment;
            or_stop(carry_caller_line(
                alloc, now, callers, store, files, staged, net, kernel, random, number, asked,
            ))
        }
        Asking::Nobody(line) => act_plainly(
            alloc, moment, store, files, staged, net, number, line, kernel,
        ),
    }
}

// Whose a line is: it goes to a moment, a caller asks it, or neither.
enum Asking {
    Moment(u64),
    Caller(CallerLine),
    Nobody(Option<ScriptLine>),
}

fn who_asks(line: Option<ScriptLine>) -> Asking
    ensures { spec.IsOf line result }
{
    let Some(line) = line else {
        return Asking::Nobody(None);
    };
    match line {
        ScriptLine::At { moment } => Asking::Moment(moment),
        ScriptLine::Call {
            session,
            object,
            method,
            json,
        } => Asking::Caller(CallerLine::Call(CallWords {
            session,
            path: object,
            method,
            json,
        })),
        ScriptLine::OpenClient {
            client,
            user,
            group,
        } => Asking::Caller(CallerLine::Open {
            client,
            user,
            group,
        }),
        ScriptLine::ClientBytes { client, bytes } => {
            Asking::Caller(CallerLine::Bytes { client, bytes })
        }
        ScriptLine::CloseClient { client } => Asking::Caller(CallerLine::Close { client }),
        other => Asking::Nobody(Some(other)),
    }
}

// Goes to a moment, unless it is before the last: sessions expire, and then files may be rolled
// back.
fn go_to<K: Kernel, D: Disk, T: Disk>(
    alloc: Global,
    moment: &mut u64,
    callers: &mut Callers,
    store: &mut Store,
    files: &mut D,
    staged: &mut T,
    net: &mut Net,
    number: u32,
    next: u64,
    kernel: &mut K,
) -> Result<Handled, Stop>
    requires open { IsOpen store.old (D.view files.old) (T.view staged.old) }
    requires told { net.old.notices ≡ [] }
    requires of { IsOf K.Kernel kernel.old net.old }
    ensures ends { (supply : Supply) →
        Ends (world_of moment.old store.old callers.old net.old) number (Some (AtLine next))
        (world_of moment.new store.new callers.new net.new)
        (record {
          kernel = telled_of K.Kernel kernel.old kernel.new;
          supply = supply;
          supply_now = supply;
          disks = disk_faults (D.view files.old) (D.view files.new)
              (T.view staged.old) (T.view staged.new);
        })
        result }
    ensures disks { StaysOn result store.old store.new
        (D.view files.old) (D.view files.new) (T.view staged.old) (T.view staged.new) }
    ensures images { StaysOrStopsIn store.old D.view files.old files.new
        (Passes (world_of moment.old store.old callers.old net.old) number (Some (AtLine next))) }
    ensures spare { callers.new.spare ≡ callers.old.spare }
    ensures of { IsOf K.Kernel kernel.new net.new }
    ensures calls { K.calls kernel.new ≡ K.calls kernel.old }
    ensures told { OnOk result (net.new.notices ≡ []) }
{
    let Ok(()) = expire(callers, store, *moment, next) else {
        return Err(Stop::Memory);
    };
    let line = Some(ScriptLine::At { moment: next });
    act_plainly(
        alloc, moment, store, files, staged, net, number, line, kernel,
    )
}

// Acts on a line that is of no caller, once sessions have expired.
fn act_plainly<K: Kernel, D: Disk, T: Disk>(
    alloc: Global,
    moment: &mut u64,
    store: &mut Store,
    files: &mut D,
    staged: &mut T,
    net: &mut Net,
    number: u32,
    line: Option<ScriptLine>,
    kernel: &mut K,
) -> Result<Handled, Stop>
    requires open { IsOpen store.old (D.view files.old) (T.view staged.old) }
    requires told { net.old.notices ≡ [] }
    requires of { IsOf K.Kernel kernel.old net.old }
    ensures ends { (callers : CallersAre) (supply : Supply) →
        PlainEnds (world_of moment.old store.old callers net.old) number line
        (world_of moment.new store.new callers net.new)
        (record {
          kernel = telled_of K.Kernel kernel.old kernel.new;
          supply = supply;
          supply_now = supply;
          disks = disk_faults (D.view files.old) (D.view files.new)
              (T.view staged.old) (T.view staged.new);
        })
        result }
    ensures disks { StaysOn result store.old store.new
        (D.view files.old) (D.view files.new) (T.view staged.old) (T.view staged.new) }
    ensures images { (callers : CallersAre) → StaysOrStopsIn store.old D.view files.old files.new
        (PlainPasses (world_of moment.old store.old callers net.old) line) }
    ensures of { IsOf K.Kernel kernel.new net.new }
    ensures calls { K.calls kernel.new ≡ K.calls kernel.old }
    ensures told { OnOk result (net.new.notices ≡ []) }
{
    match act_on(
        alloc, moment, store, files, staged, net, number, line, kernel,
    ) {
        Ok(told) => Ok(Handled {
            sent: Text::from_vec(Vec::new(alloc)),
            told,
        }),
        Err(stop) => Err(stop),
    }
}

// What stopped a line stops the script.
fn or_stop(handled: Result<Handled, CallStop>) -> Result<Handled, Stop>
    ensures { result ≡ spec.or_stop handled }
{
    match handled {
        Ok(told) => Ok(told),
        Err(CallStop::DiskFailed) => Err(Stop::DiskFailed),
        Err(CallStop::Memory) => Err(Stop::Memory),
    }
}
