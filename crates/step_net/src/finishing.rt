ghost use Rattle.std.specs.Prelude.{◌≡◌, false, OnOk, OnErr, IfOk};
ghost use Rattle.plane_words.specs.Causes.{HasCause};
ghost use Rattle.plane_words.specs.Growth.{Grows, GrowsByFront};
ghost use Rattle.net_rules.specs.Moment.{want_of};
ghost use Rattle.net_settle.specs.Outside.{outside_of};
ghost use Rattle.net_plane.specs.Network.{IsOf, moment_of};
ghost use Rattle.step_net.specs.Moved as spec;
ghost use Rattle.step_net.specs.Taken.{telling_in};
ghost use Rattle.step_net.specs.Finished.{Finishes, Opens, Settles, HoldsOrFailed};

use crate::told::Told;
use kern_model::Kernel;
use net_plane::{Net, NetError};
use plane_io::{Failed, Sink};

/// Settles, tells of the line behind it, and answers whether the line was ok. It takes no memory.
///
/// # Errors
///
/// At the first line that is not written, or not wholly.
pub fn finish<K: Kernel, O: Sink>(
    net: &mut Net,
    told: &Told,
    kernel: &mut K,
    out: &mut O,
) -> Result<bool, Failed>
    requires { IsOf K.Kernel kernel.old net.old }
    ensures finishes { Finishes (moment_of net.old) (moment_of net.new) (telling_in told.now)
        (outside_of O.Sink K.Kernel out.old kernel.old)
        (outside_of O.Sink K.Kernel out.new kernel.new) result }
    ensures due { OnOk result (HoldsOrFailed (K.objects kernel.new) (want_of net.new.inputs)
        (K.faults kernel.old) (K.faults kernel.new)) }
    ensures of { IsOf K.Kernel kernel.new net.new }
    ensures notices { net.new.notices ≡ net.old.notices }
{
    let Ok(stopped) = settle(net, kernel, out) else {
        return Err(Failed);
    };
    let Ok(()) = tell(told.shown.as_bytes(), out) else {
        return Err(Failed);
    };
    let Ok(()) = tell(last_line(told, stopped), out) else {
        return Err(Failed);
    };
    Ok(is_fine(told, stopped))
}

/// Settles, and shows a text behind the lines of the calls. It takes no memory. A call of the
/// kernel that failed is not told.
///
/// # Errors
///
/// At the first line that is not written, or not wholly.
pub fn settle_and_show<K: Kernel, O: Sink>(
    net: &mut Net,
    text: &[u8],
    kernel: &mut K,
    out: &mut O,
) -> Result<(), Failed>
    requires { IsOf K.Kernel kernel.old net.old }
    ensures opens { Opens (moment_of net.old) (moment_of net.new) text.now
        (outside_of O.Sink K.Kernel out.old kernel.old)
        (outside_of O.Sink K.Kernel out.new kernel.new) result }
    ensures due { OnOk result (HoldsOrFailed (K.objects kernel.new) (want_of net.new.inputs)
        (K.faults kernel.old) (K.faults kernel.new)) }
    ensures of { IsOf K.Kernel kernel.new net.new }
    ensures notices { net.new.notices ≡ net.old.notices }
{
    let Ok(_stopped) = settle(net, kernel, out) else {
        return Err(Failed);
    };
    tell(text, out)
}

// Settles, and answers whether a call of the kernel failed.
fn settle<K: Kernel, O: Sink>(net: &mut Net, kernel: &mut K, out: &mut O) -> Result<bool, Failed>
    requires { IsOf K.Kernel kernel.old net.old }
    ensures settles { Settles (moment_of net.old) (moment_of net.new)
        (outside_of O.Sink K.Kernel out.old kernel.old)
        (outside_of O.Sink K.Kernel out.new kernel.new) result }
    ensures holds { IfOk result (λ stopped. stopped ≡ false →
        K.objects kernel.new ≡ want_of net.new.inputs) }
    ensures of { IsOf K.Kernel kernel.new net.new }
    ensures notices { net.new.notices ≡ net.old.notices }
{
    match net.settle(kernel, out) {
        Ok(()) => Ok(false),
        Err(error) => match error {
            NetError::KernelFailed => Ok(true),
            _ => Err(Failed),
        },
    }
}

// Writes the lines, where there are any.
fn tell<O: Sink>(lines: &[u8], out: &mut O) -> Result<(), Failed>
    ensures written { OnOk result (Grows (O.held out.old) (O.held out.new) lines.now) }
    ensures in_part { OnErr result (GrowsByFront (O.held out.old) (O.held out.new) lines.now) }
    ensures cause { HasCause (O.faults out.old) (O.faults out.new) result }
{
    if lines.is_empty() {
        return Ok(());
    }
    out.write(lines)
}

// The last line of the answer. A refusal of the line goes before one of its settling.
fn last_line(told: &Told, stopped: bool) -> &[u8]
    ensures { result.now ≡ spec.last_line told.now.refusal stopped }
{
    match &told.refusal {
        Some(line) => line.as_bytes(),
        None if stopped => b"error 93 kernel\n",
        None => b"ok\n",
    }
}

// Neither the line was refused, nor did its settling stop.
fn is_fine(told: &Told, stopped: bool) -> bool
    ensures { result ≡ spec.is_fine told.now.refusal stopped }
{
    match &told.refusal {
        Some(_) => false,
        None => !stopped,
    }
}
