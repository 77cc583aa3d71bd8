ghost use Rattle.std.specs.Prelude.{◌≡◌, ◌≤◌, [], IfOk, OnOk};
ghost use Rattle.std.specs.FinSet as set;
ghost use Rattle.std.specs.FinMap as finite_map;
ghost use Rattle.kern_model.specs.ObjectOrder.{set_of};
ghost use Rattle.net_rules.specs.Moment.{devices_of, want_of};
ghost use Rattle.net_settle.specs.Outside.{outside_of};
ghost use Rattle.net_plane.specs.Network.{IsOf, moment_of};
ghost use Rattle.net_start.specs.BringUp.{IsBare};
ghost use Rattle.step_net.specs.Finished.{HoldsOrFailed};
ghost use Rattle.net_gen.specs.Steps.{loaded};
ghost use Rattle.net_gen.specs.Run.{RunEnds, StepsEnd, HeldEnds};

use crate::gen_error::GenError;
use crate::held::count_held;
use crate::number_line::write_number;
use crate::packages::{Standing, network, no_package};
use crate::steps::{STEPS, take_step};
use kern_model::Kernel;
use net_plane::Net;
use plane_io::{Memory, Sink};
use std::alloc::Global;
use step_net::take_load;
use uci_tree::Package;

/// Runs the network of so many bridges over a kernel that holds nothing: its device comes, goes and
/// comes again, and then the rows are loaded without the interfaces whose number is a multiple of
/// 3. Each step is settled, and its line tells how many calls were made. The last line tells how
/// many objects are held.
///
/// # Errors
///
/// `KernelFailed` where something is due at the end; all lines are written. `WriteFailed` at the
/// first line that is not written, or not wholly, and `Memory`: then the run ends there.
pub fn generate<K: Kernel, O: Sink>(
    alloc: Global,
    count: u32,
    kernel: &mut K,
    out: &mut O,
) -> Result<(), GenError>
    requires { IsBare K.Kernel kernel.old }
    ensures ends { RunEnds count (outside_of O.Sink K.Kernel out.old kernel.old)
        (outside_of O.Sink K.Kernel out.new kernel.new) result }
{
    let Ok(rows) = network(alloc, Standing::WithoutThirds, count) else {
        return Err(GenError::Memory);
    };
    let Ok(mut net) = load_all(alloc, count) else {
        return Err(GenError::Memory);
    };
    match take_steps(alloc, &rows, &mut net, kernel, out) {
        Ok(()) => tell_held(alloc, net, out),
        Err(error) => Err(error),
    }
}

// The plane with all rows, over nothing. Too many rows are not loaded.
fn load_all(alloc: Global, count: u32) -> Result<Net, Memory>
    ensures loaded { IfOk result (λ net. moment_of net ≡ loaded count) }
    ensures silent { IfOk result (λ net. net.notices ≡ []) }
    ensures bare { IfOk result (λ net. (devices_of net.inputs ≡ finite_map.empty)
        × (set_of net.held ≡ set.empty)) }
{
    let Ok(rows) = network(alloc, Standing::All, count) else {
        return Err(Memory);
    };
    let mut net = Net::new(alloc);
    let nothing = no_package(alloc);
    let Ok(_taken) = take_load(alloc, &mut net, &rows, &nothing) else {
        return Err(Memory);
    };
    Ok(net)
}

// Takes the steps, and writes the line of each behind it.
fn take_steps<K: Kernel, O: Sink>(
    alloc: Global,
    rows: &Package,
    net: &mut Net,
    kernel: &mut K,
    out: &mut O,
) -> Result<(), GenError>
    requires told { net.old.notices ≡ [] }
    requires of { IsOf K.Kernel kernel.old net.old }
    ensures ends { StepsEnd rows.now (moment_of net.old) (moment_of net.new)
        (outside_of O.Sink K.Kernel out.old kernel.old)
        (outside_of O.Sink K.Kernel out.new kernel.new) result }
    ensures of { IsOf K.Kernel kernel.new net.new }
    ensures silent { OnOk result (net.new.notices ≡ []) }
    ensures holds { OnOk result (HoldsOrFailed (K.objects kernel.new) (want_of net.new.inputs)
        (K.faults kernel.old) (K.faults kernel.new)) }
{
    for step in STEPS {
        let Ok(calls) = take_step(alloc, rows, step, net, kernel) else {
            return Err(GenError::Memory);
        };
        let Ok(()) = write_number(step.word(), calls, out) else {
            return Err(GenError::WriteFailed);
        };
    }
    Ok(())
}

// Writes the last line.
fn tell_held<O: Sink>(alloc: Global, net: Net, out: &mut O) -> Result<(), GenError>
    requires { net.notices ≡ [] }
    ensures ends { HeldEnds (moment_of net) (O.held out.old) (O.held out.new)
        (O.faults out.old) (O.faults out.new) result }
    ensures later { O.faults out.old ≤ O.faults out.new }
{
    let due = net.due();
    let Ok(held) = count_held(alloc, net) else {
        return Err(GenError::Memory);
    };
    let Ok(()) = write_number(b"objects", held as u64, out) else {
        return Err(GenError::WriteFailed);
    };
    if due == 0 {
        Ok(())
    } else {
        Err(GenError::KernelFailed { due })
    }
}
