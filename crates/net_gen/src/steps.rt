ghost use Rattle.std.specs.Prelude.{◌≡◌, ◌≤◌, [], length, OnOk};
ghost use Rattle.net_rules.specs.Moment.{want_of};
ghost use Rattle.net_plane.specs.Network.{IsOf, moment_of};
ghost use Rattle.step_net.specs.Taken.{TriesEvent, telled_of};
ghost use Rattle.step_net.specs.Finished.{HoldsOrFailed};
ghost use Rattle.net_gen.specs.Counted.{kernel_alone};
ghost use Rattle.net_gen.specs.Steps as spec;
ghost use Rattle.net_gen.specs.StepEnds.{StepEnds};

use crate::counted::settle_and_count;
use crate::packages::no_package;
use kern_model::{DevEvent, DevName, Kernel, Mac, read_name};
use net_plane::Net;
use net_start::ETHERNET_MTU;
use plane_io::Memory;
use std::alloc::Global;
use step_net::{Taken, take_device, take_load};
use uci_tree::Package;

/// A step of a run.
#[derive(Clone, Copy)]
pub(crate) enum Step {
    /// The device comes.
    Add,
    /// The device goes.
    Remove,
    /// The rows are loaded again, with fewer interfaces.
    Reload,
}

/// The steps of a run, in their order.
pub(crate) const STEPS: [Step; 4] = [Step::Add, Step::Remove, Step::Add, Step::Reload];

impl Step {
    /// The word of its line.
    pub(crate) fn word(self) -> &'static [u8]
        ensures is { result.now ≡ spec.word_of self }
        ensures short { length result.now ≤ 8 }
    {
        match self {
            Step::Add => b"add",
            Step::Remove => b"del",
            Step::Reload => b"reload",
        }
    }
}

/// Takes a step and settles, whether it was refused or not, and answers how many calls were made.
/// These are the rows of the reload.
pub(crate) fn take_step<K: Kernel>(
    alloc: Global,
    rows: &Package,
    step: Step,
    net: &mut Net,
    kernel: &mut K,
) -> Result<u64, Memory>
    requires told { net.old.notices ≡ [] }
    requires of { IsOf K.Kernel kernel.old net.old }
    ensures ends { StepEnds rows.now step (moment_of net.old) (moment_of net.new)
        (kernel_alone K.Kernel kernel.old) (kernel_alone K.Kernel kernel.new) result }
    ensures of { IsOf K.Kernel kernel.new net.new }
    ensures holds { OnOk result (HoldsOrFailed (K.objects kernel.new) (want_of net.new.inputs)
        (K.faults kernel.old) (K.faults kernel.new)) }
    ensures silent { OnOk result (net.new.notices ≡ []) }
{
    let Ok(_taken) = act(alloc, rows, step, net, kernel) else {
        return Err(Memory);
    };
    settle_and_count(net, kernel)
}

// What a step does before it is settled.
fn act<K: Kernel>(
    alloc: Global,
    rows: &Package,
    step: Step,
    net: &mut Net,
    kernel: &mut K,
) -> Result<Taken, Memory>
    requires told { net.old.notices ≡ [] }
    requires of { IsOf K.Kernel kernel.old net.old }
    ensures tries { TriesEvent (spec.line_of rows.now step) net.old net.new
        (telled_of K.Kernel kernel.old kernel.new) result }
    ensures of { IsOf K.Kernel kernel.new net.new }
    ensures calls { K.calls kernel.new ≡ K.calls kernel.old }
{
    match step {
        Step::Add => take_device(alloc, net, kernel, &device_comes()),
        Step::Remove => take_device(alloc, net, kernel, &DevEvent::Remove { name: device() }),
        Step::Reload => take_load(alloc, net, rows, &no_package(alloc)),
    }
}

fn device_comes() -> DevEvent
    ensures { result ≡ spec.device_comes }
{
    DevEvent::Add {
        name: device(),
        carrier: true,
        mtu: ETHERNET_MTU,
        mac: Mac([0; 6]),
    }
}

// The device that all ports are VLANs of.
fn device() -> DevName
    ensures { result ≡ spec.device }
{
    match read_name(b"eth0") {
        Some(name) => name,
        None => unreachable!(),
    }
}
