ghost use Rattle.std.specs.Prelude.{◌≡◌, [], OnOk};
ghost use Rattle.net_plane.specs.Network.{IsOf, HasSameKernel};

use crate::bench::Bench;
use crate::event::happen;
use crate::shown::show;
use case_files::words;
use kern_memory::MemKernel;
use kern_model::Kernel;
use net_plane::{Net, NetError};
use net_rules::Notice;
use plane_io::MemSink;
use std::alloc::Global;
use std::fmt::Write;

fn write_notice(out: &mut String, notice: Notice) -> anyhow::Result<()> {
    match notice {
        Notice::Dropped { number } => writeln!(out, "drop {number}")?,
        Notice::Interface { number, row, .. } => writeln!(out, "ask {number} interface {row}")?,
        Notice::Radio { number, row } => writeln!(out, "ask {number} radio {row}")?,
    }
    Ok(())
}

/// Writes a line for each notice, until none is left.
pub(crate) fn tell(net: &mut Net, out: &mut String) -> anyhow::Result<()>
    ensures told { OnOk result (net.new.notices ≡ []) }
    ensures kernel { OnOk result (HasSameKernel net.old net.new) }
{
    while let Some(notice) = net.notice() {
        write_notice(out, notice)?;
    }
    Ok(())
}

fn write_end(out: &mut String, ended: Result<(), NetError>) -> anyhow::Result<()> {
    match ended {
        Ok(()) => writeln!(out, "ok")?,
        Err(NetError::Memory) => return Err(NetError::Memory.into()),
        Err(error) => writeln!(out, "error {} {error}", error.number())?,
    }
    Ok(())
}

/// Carries an event out and settles: the lines of the calls, those of the notices, and how it
/// ended.
fn event<K: Kernel>(
    alloc: Global,
    bench: &Bench,
    net: &mut Net,
    kernel: &mut K,
    words: &[&str],
    out: &mut Vec<u8>,
) -> anyhow::Result<()>
    requires told { net.old.notices ≡ [] }
    requires of { IsOf K.Kernel kernel.old net.old }
    ensures told { OnOk result (net.new.notices ≡ []) }
    ensures of { OnOk result (IsOf K.Kernel kernel.new net.new) }
{
    let mut lines = MemSink::new(alloc, Vec::new(alloc));
    let mut told = String::new(alloc);
    let taken = happen(alloc, bench, net, kernel, words)?;
    let settled = net.settle(kernel, &mut lines);
    tell(net, &mut told)?;
    let ended = match taken {
        Ok(()) => settled,
        Err(error) => Err(error),
    };
    write_end(&mut told, ended)?;
    out.extend_from_slice(lines.bytes())?;
    out.extend_from_slice(told.as_bytes())?;
    Ok(())
}

/// Carries the events out, one after the other.
fn go_on<K: Kernel>(
    alloc: Global,
    bench: &Bench,
    net: &mut Net,
    kernel: &mut K,
    events: &str,
    out: &mut Vec<u8>,
) -> anyhow::Result<()>
    requires told { net.old.notices ≡ [] }
    requires of { IsOf K.Kernel kernel.old net.old }
{
    for line in events.lines() {
        let words = words(alloc, line)?;
        if let ["show" | "graph" | "due", ..] = words.as_slice() {
            show(alloc, net, &words, out)?;
        } else {
            event(alloc, bench, net, kernel, &words, out)?;
        }
    }
    Ok(())
}

/// A new plane takes the events over a kernel whose calls and events of these numbers fail.
pub(crate) fn play(
    alloc: Global,
    bench: &Bench,
    calls: Vec<u64>,
    failing: Vec<u64>,
    events: &str,
    out: &mut Vec<u8>,
) -> anyhow::Result<()> {
    let mut kernel = MemKernel::new(alloc, calls, failing);
    let mut net = Net::new(alloc);
    go_on(alloc, bench, &mut net, &mut kernel, events, out)
}
