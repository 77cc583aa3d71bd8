ghost use Rattle.std.specs.Prelude.{◌≡◌, [], None, Err, IfOk, IfErr, OnOk, OnErr};
ghost use Rattle.plane_words.specs.Causes.{HasCause};
ghost use Rattle.plane_words.specs.Growth.{Grows, GrowsByFront};
ghost use Rattle.plane_words.specs.Distinct.{AreDistinct};
ghost use Rattle.net_conf.specs.Limits as limits;
ghost use Rattle.net_rules.specs.Moment.{want_of, moment_after};
ghost use Rattle.net_rules.specs.Notices.{notices};
ghost use Rattle.net_settle.specs.Outside.{outside_of};
ghost use Rattle.net_plane.specs.Network.{moment_of, calls_of, IsOf, HasSameKernel};
ghost use Rattle.net_start.specs.Inputs.{rows_of, loading};
ghost use Rattle.net_start.specs.Inputs as spec;
ghost use Rattle.net_start.specs.Settling.{SettlingEnds};
ghost use Rattle.net_start.specs.BringUp.{IsBare, BringUpEnds};

use crate::devices::add_devices;
use crate::requests::lines_of_requests;
use crate::rows::no_wireless;
use crate::start_error::StartError;
use kern_model::{DevName, Kernel};
use net_plane::{Net, NetError};
use plane_io::{Memory, Sink};
use std::alloc::Global;
use uci_tree::Package;

/// Adds the named devices to a kernel that has none, in their order, and brings the network of the
/// package up on those that it took: each call is made and its line written, and then the lines of
/// the requests. A device that the kernel does not take is absent.
///
/// # Errors
///
/// `KernelFailed` at the first call that fails: the lines of the calls before and of the requests
/// are written. `WriteFailed` at the first line that is not written, or not wholly. `Memory`: then
/// no call was made and nothing was written, but devices may have been added.
pub fn bring_network_up<K: Kernel, O: Sink>(
    alloc: Global,
    names: &[DevName],
    network: &Package,
    kernel: &mut K,
    out: &mut O,
) -> Result<(), StartError>
    requires bare { IsBare K.Kernel kernel.old }
    requires distinct { AreDistinct names.now }
    requires within { limits.passed_limit (rows_of network.now) ≡ None }
    ensures ends { BringUpEnds names.now network.now
        (outside_of O.Sink K.Kernel out.old kernel.old)
        (outside_of O.Sink K.Kernel out.new kernel.new) result }
    ensures unfilled { result ≡ Err StartError.Memory → out.new ≡ out.old }
{
    let mut net = Net::new(alloc);
    let Ok(()) = add_devices(alloc, names, &mut net, kernel) else {
        return Err(StartError::Memory);
    };
    let Ok(requests) = load(alloc, network, &mut net) else {
        return Err(StartError::Memory);
    };
    settle(&mut net, requests.as_slice(), kernel, out)
}

// Loads the rows of the package, and gives the lines of the requests that are opened.
fn load(alloc: Global, network: &Package, net: &mut Net) -> Result<Vec<u8>, Memory>
    requires told { net.old.notices ≡ [] }
    ensures moment { OnOk result
        (moment_of net.new ≡ moment_after (moment_of net.old) (loading network.now)) }
    ensures kernel { HasSameKernel net.old net.new }
    ensures requests { IfOk result
        (λ requests. requests.items ≡ spec.lines_of_requests (rows_of network.now)
        (notices net.old.inputs (loading network.now))) }
{
    let Ok(()) = net.load(alloc, network, &no_wireless(alloc)) else {
        return Err(Memory);
    };
    lines_of_requests(alloc, net)
}

// Settles, and tells of the requests behind it.
fn settle<K: Kernel, O: Sink>(
    net: &mut Net,
    requests: &[u8],
    kernel: &mut K,
    out: &mut O,
) -> Result<(), StartError>
    requires { IsOf K.Kernel kernel.old net.old }
    ensures { SettlingEnds (calls_of net.old) requests.now (want_of net.old.inputs)
        (outside_of O.Sink K.Kernel out.old kernel.old)
        (outside_of O.Sink K.Kernel out.new kernel.new) result }
{
    match net.settle(kernel, out) {
        Ok(()) => tell(requests, out),
        Err(error) => match error {
            NetError::WriteFailed => Err(StartError::WriteFailed),
            _ => match tell(requests, out) {
                Ok(()) => Err(StartError::KernelFailed { due: net.due() }),
                Err(error) => Err(error),
            },
        },
    }
}

// Writes the lines, where there are any.
fn tell<O: Sink>(lines: &[u8], out: &mut O) -> Result<(), StartError>
    ensures written { OnOk result (Grows (O.held out.old) (O.held out.new) lines.now) }
    ensures in_part { OnErr result (GrowsByFront (O.held out.old) (O.held out.new) lines.now) }
    ensures cause { HasCause (O.faults out.old) (O.faults out.new) result }
    ensures error { IfErr result (λ error. error ≡ StartError.WriteFailed) }
{
    if lines.is_empty() {
        return Ok(());
    }
    match out.write(lines) {
        Ok(()) => Ok(()),
        Err(_) => Err(StartError::WriteFailed),
    }
}
