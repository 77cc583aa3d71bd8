//! The opening of a run.
ghost use Rattle.std.specs.Prelude.{◌≡◌, [], None, OnOk, IfOk, IfErr};
ghost use Rattle.net_conf.specs.Conf.{conf};
ghost use Rattle.net_conf.specs.Limits.{passed_limit};
ghost use Rattle.net_rules.specs.Moment.{want_of, moment_after};
ghost use Rattle.net_settle.specs.Outside.{outside_of};
ghost use Rattle.net_plane.specs.Network.{IsNew, IsOf, HasSameKernel, moment_of};
ghost use Rattle.step_net.specs.Acted.{requests_after};
ghost use Rattle.step_net.specs.Finished.{HoldsOrFailed};
ghost use Rattle.plane_run.specs.Opening.{loading};
ghost use Rattle.plane_run.specs.Parts.{OpensNet, RowsPass};

use crate::run_end::RunEnd;
use kern_model::Kernel;
use net_plane::{Net, NetError};
use plane_io::Sink;
use std::alloc::Global;
use step_net::{lines_of_requests, settle_and_show};
use uci_tree::Package;

/// Loads the rows of two packages into a new plane, settles, and tells the requests. All memory is
/// taken before the first call.
pub(crate) fn open_net<K: Kernel, O: Sink>(
    alloc: Global,
    net: &mut Net,
    network: &Package,
    wireless: &Package,
    kernel: &mut K,
    out: &mut O,
) -> Result<(), RunEnd>
    requires new { IsNew net.old }
    requires of { IsOf K.Kernel kernel.old net.old }
    ensures opens { OpensNet network.now wireless.now (moment_of net.new)
        (outside_of O.Sink K.Kernel out.old kernel.old)
        (outside_of O.Sink K.Kernel out.new kernel.new) result }
    ensures due { OnOk result (HoldsOrFailed (K.objects kernel.new) (want_of net.new.inputs)
        (K.faults kernel.old) (K.faults kernel.new)) }
    ensures of { IsOf K.Kernel kernel.new net.new }
    ensures told { OnOk result (net.new.notices ≡ []) }
{
    match load(alloc, net, network, wireless) {
        Ok(requests) => match settle_and_show(net, requests.as_slice(), kernel, out) {
            Ok(()) => Ok(()),
            Err(_) => Err(RunEnd::WriteFailed),
        },
        Err(end) => Err(end),
    }
}

// Loads the rows, and gives the lines of the requests that are opened.
fn load(
    alloc: Global,
    net: &mut Net,
    network: &Package,
    wireless: &Package,
) -> Result<Vec<u8>, RunEnd>
    requires { net.old.notices ≡ [] }
    ensures moment { OnOk result (moment_of net.new
        ≡ moment_after (moment_of net.old) (loading network.now wireless.now)) }
    ensures requests { IfOk result (λ requests.
        requests.items ≡ requests_after net.old.inputs (loading network.now wireless.now)) }
    ensures within { OnOk result (passed_limit (conf network.now wireless.now) ≡ None) }
    ensures refused { IfErr result (RowsPass network.now wireless.now) }
    ensures kernel { HasSameKernel net.old net.new }
    ensures silent { OnOk result (net.new.notices ≡ []) }
{
    match net.load(alloc, network, wireless) {
        Ok(()) => {}
        Err(NetError::Limit { number }) => return Err(RunEnd::TooLong { limit: number }),
        Err(_) => return Err(RunEnd::OutOfMemory),
    }
    match lines_of_requests(alloc, net) {
        Ok(lines) => Ok(lines),
        Err(_) => Err(RunEnd::OutOfMemory),
    }
}
