ghost use Rattle.std.specs.Prelude.{◌≡◌, [], OnOk};
ghost use Rattle.net_plane.specs.Network.{IsOf};

use crate::bench::Bench;
use crate::event::happen;
use crate::history::tell;
use case_files::words;
use kern_memory::MemKernel;
use kern_model::{Kernel, Object, is_among};
use net_plane::{Net, NetError};
use plane_io::MemSink;
use std::alloc::Global;

/// Carries an event out, and where the kernel failed at it, again.
fn happen_at_last<K: Kernel>(
    alloc: Global,
    bench: &Bench,
    net: &mut Net,
    kernel: &mut K,
    words: &[&str],
) -> anyhow::Result<()>
    requires told { net.old.notices ≡ [] }
    requires of { IsOf K.Kernel kernel.old net.old }
    ensures { OnOk result (IsOf K.Kernel kernel.new net.new) }
{
    match happen(alloc, bench, net, kernel, words)? {
        Ok(()) => return Ok(()),
        Err(NetError::KernelFailed) => tell(net, &mut String::new(alloc))?,
        Err(error) => return Err(error.into()),
    }
    match happen(alloc, bench, net, kernel, words)? {
        Ok(()) => Ok(()),
        Err(error) => Err(error.into()),
    }
}

/// Settles, and where that stopped, again.
fn settle_at_last<K: Kernel>(alloc: Global, net: &mut Net, kernel: &mut K) -> anyhow::Result<()>
    requires { IsOf K.Kernel kernel.old net.old }
    ensures told { OnOk result (net.new.notices ≡ []) }
    ensures of { OnOk result (IsOf K.Kernel kernel.new net.new) }
{
    let mut out = MemSink::new(alloc, Vec::new(alloc));
    tell(net, &mut String::new(alloc))?;
    let Err(_) = net.settle(kernel, &mut out) else {
        return Ok(());
    };
    match net.settle(kernel, &mut out) {
        Ok(()) => Ok(()),
        Err(error) => Err(error.into()),
    }
}

fn go_on<K: Kernel>(
    alloc: Global,
    bench: &Bench,
    net: &mut Net,
    kernel: &mut K,
    events: &str,
) -> anyhow::Result<()>
    requires told { net.old.notices ≡ [] }
    requires of { IsOf K.Kernel kernel.old net.old }
{
    for line in events.lines() {
        let words = words(alloc, line)?;
        happen_at_last(alloc, bench, net, kernel, &words)?;
        settle_at_last(alloc, net, kernel)?;
    }
    Ok(())
}

/// The kernel behind the events, where its calls and events of these numbers failed.
fn kernel_after(
    alloc: Global,
    bench: &Bench,
    calls: Vec<u64>,
    failing: Vec<u64>,
    events: &str,
) -> anyhow::Result<MemKernel> {
    let mut kernel = MemKernel::new(alloc, calls, failing);
    let ran = {
        let mut net = Net::new(alloc);
        go_on(alloc, bench, &mut net, &mut kernel, events)
    };
    ran?;
    Ok(kernel)
}

fn has_same_objects(one: &[Object], other: &[Object]) -> bool {
    one.len() == other.len() && one.iter().all(|object| is_among(other, object))
}

/// In how many of the runs up to this number, each with the call or the event of its number failing
/// once, the kernel holds the same in the end as without a failure.
pub(crate) fn sweep(
    alloc: Global,
    bench: &Bench,
    is_call: bool,
    most: u64,
    events: &str,
) -> anyhow::Result<u64> {
    let whole = kernel_after(alloc, bench, Vec::new(alloc), Vec::new(alloc), events)?;
    let mut same: u64 = 0;
    for number in 1..=most {
        let failing = Vec::from_slice(alloc, &[number])?;
        let kernel = if is_call {
            kernel_after(alloc, bench, failing, Vec::new(alloc), events)?
        } else {
            kernel_after(alloc, bench, Vec::new(alloc), failing, events)?
        };
        if has_same_objects(kernel.objects(), whole.objects()) {
            same = same.saturating_add(1);
        }
    }
    Ok(same)
}
