ghost use Rattle.std.specs.Prelude.{◌≡◌, IfOk, IfErr, IfSome, IfNone};
ghost use Rattle.plane_words.specs.Distinct.{AreDistinct};
ghost use Rattle.uci_tree.specs.Fault.{fault_of};
ghost use Rattle.net_settle.specs.Outside.{outside_of};
ghost use Rattle.net_start.specs.BringUp.{IsBare};
ghost use Rattle.plane_main.specs.Outside.{input_of};
ghost use Rattle.plane_main.specs.Ending.{IsEarly};
ghost use Rattle.plane_main.specs.Ending as spec;
ghost use Rattle.plane_main.specs.Start.{HasNetwork, ReadEnds, StartEnds};

use crate::ending::Ending;
use kern_model::{DevName, Kernel};
use net_start::{StartError, bring_network_up, passed_limit};
use plane_io::{INPUT_LIMIT, InputError, Sink, Source, read_to_end};
use std::alloc::Global;
use uci_tree::{Package, TreeError, read_package};

/// The name of the package that is read.
pub const PACKAGE: &[u8] = b"network";

/// Adds the named devices to a kernel that has none, and brings the network of the input up on
/// them.
pub fn start<S: Source, O: Sink, K: Kernel>(
    alloc: Global,
    devices: &[DevName],
    input: &mut S,
    out: &mut O,
    kernel: &mut K,
) -> Ending
    requires bare { IsBare K.Kernel kernel.old }
    requires distinct { AreDistinct devices.now }
    ensures cause { StartEnds devices.now
        (input_of S.Source input.old input.new)
        (outside_of O.Sink K.Kernel out.old kernel.old)
        (outside_of O.Sink K.Kernel out.new kernel.new) result }
    ensures early { IsEarly result → (out.new ≡ out.old) × (kernel.new ≡ kernel.old) }
    ensures memory { result ≡ Ending.OutOfMemory → out.new ≡ out.old }
{
    match read_network(alloc, input) {
        Ok(network) => ending_of(bring_network_up(alloc, devices, &network, kernel, out)),
        Err(ending) => ending,
    }
}

fn ending_of(ended: Result<(), StartError>) -> Ending
    ensures { result ≡ spec.ending_of ended }
{
    match ended {
        Ok(()) => Ending::Done,
        Err(StartError::KernelFailed { due }) => Ending::KernelFailed { left: due },
        Err(StartError::WriteFailed) => Ending::WriteFailed,
        Err(StartError::Memory) => Ending::OutOfMemory,
    }
}

fn read_network<S: Source>(alloc: Global, input: &mut S) -> Result<Package, Ending>
    ensures found { IfOk result (HasNetwork (input_of S.Source input.old input.new)) }
    ensures refused { IfErr result (ReadEnds (input_of S.Source input.old input.new)) }
{
    let text = match read_to_end(alloc, input, INPUT_LIMIT) {
        Ok(text) => text,
        Err(InputError::ReadFailed) => return Err(Ending::ReadFailed),
        Err(InputError::TooLong { limit }) => return Err(Ending::TooLong { limit }),
        Err(InputError::Memory) => return Err(Ending::OutOfMemory),
    };
    let network = match read_package(alloc, PACKAGE, &text) {
        Ok(network) => network,
        Err(error) => return Err(refusal(error)),
    };
    match passed_limit(alloc, &network) {
        Ok(None) => Ok(network),
        Ok(Some(limit)) => Err(Ending::TooLong { limit }),
        Err(_) => Err(Ending::OutOfMemory),
    }
}

/// How a run ends whose input is no package, or was not read as one.
fn refusal(error: TreeError) -> Ending
    ensures unreadable { IfSome (fault_of error) (λ fault. result ≡ Ending.Unreadable fault) }
    ensures lacking { IfNone (fault_of error) (result ≡ Ending.OutOfMemory) }
{
    match error.fault() {
        Some(fault) => Ending::Unreadable { fault },
        None => Ending::OutOfMemory,
    }
}
