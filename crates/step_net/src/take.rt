ghost use Rattle.std.specs.Prelude.{◌≡◌, [], IfOk, OnOk};
ghost use Rattle.net_rules.specs.declared.event.Event.TheVariants as event_of;
ghost use Rattle.net_plane.specs.Network.{IsOf, HasSameKernel};
ghost use Rattle.step_net.specs.NetLine.{NetLine, load_line};
ghost use Rattle.step_net.specs.Acted.{lines_of_requests as lines_of};
ghost use Rattle.step_net.specs.Told as told_spec;
ghost use Rattle.step_net.specs.Taken as spec;
ghost use Rattle.step_net.specs.Taken.{TakesEvent, TriesEvent, Ends, IsRefusedFor, telled_of};

use crate::requests::lines_of_requests;
use crate::taken::Taken;
use crate::told::line_error;
use kern_model::{DevEvent, DevName, Kernel};
use net_plane::{Net, NetError};
use net_rules::Answer;
use plane_io::{Items, Memory, Text};
use std::alloc::Global;
use uci_tree::Package;

/// What happens to a device is told to the kernel, and the plane follows.
///
/// # Errors
///
/// Want of memory, before anything is done or for what is to be told of it.
pub fn take_device<K: Kernel>(
    alloc: Global,
    net: &mut Net,
    kernel: &mut K,
    event: &DevEvent,
) -> Result<Taken, Memory>
    requires told { net.old.notices ≡ [] }
    requires of { IsOf K.Kernel kernel.old net.old }
    ensures tries { TriesEvent (NetLine.happens (event_of.Device event.now)) net.old net.new
        (telled_of K.Kernel kernel.old kernel.new) result }
    ensures of { IsOf K.Kernel kernel.new net.new }
    ensures calls { K.calls kernel.new ≡ K.calls kernel.old }
{
    let ended = net.device(alloc, kernel, event);
    note(alloc, net, ended)
}

/// An interface is brought up or down by hand.
///
/// # Errors
///
/// Want of memory, before anything is done or for what is to be told of it.
pub fn take_operator(
    alloc: Global,
    net: &mut Net,
    interface: Text,
    up: bool,
) -> Result<Taken, Memory>
    requires { net.old.notices ≡ [] }
    ensures takes { TakesEvent (NetLine.happens (event_of.Operator interface up)) net.old net.new
        result }
    ensures kernel { HasSameKernel net.old net.new }
{
    let ended = net.operator(interface, up);
    note(alloc, net, ended)
}

/// The handler of an interface answers the request of this number.
///
/// # Errors
///
/// Want of memory, before anything is done or for what is to be told of it.
pub fn take_answer(
    alloc: Global,
    net: &mut Net,
    interface: Text,
    number: u64,
    answer: Answer,
) -> Result<Taken, Memory>
    requires { net.old.notices ≡ [] }
    ensures takes { TakesEvent (NetLine.happens (event_of.Answer interface number answer)) net.old
        net.new result }
    ensures kernel { HasSameKernel net.old net.new }
{
    let ended = net.answer(alloc, interface, number, answer);
    note(alloc, net, ended)
}

/// The handler of a radio answers the request of this number.
///
/// # Errors
///
/// Want of memory, before anything is done or for what is to be told of it.
pub fn take_radio(
    alloc: Global,
    net: &mut Net,
    radio: Text,
    number: u64,
    ports: Items<Option<DevName>>,
) -> Result<Taken, Memory>
    requires { net.old.notices ≡ [] }
    ensures takes { TakesEvent (NetLine.happens (event_of.Radio radio number ports)) net.old net.new
        result }
    ensures kernel { HasSameKernel net.old net.new }
{
    let ended = net.radio(alloc, radio, number, ports);
    note(alloc, net, ended)
}

/// The rows of a `network` and of a `wireless` package are loaded.
///
/// # Errors
///
/// Want of memory, before anything is done or for what is to be told of it.
pub fn take_load(
    alloc: Global,
    net: &mut Net,
    network: &Package,
    wireless: &Package,
) -> Result<Taken, Memory>
    requires { net.old.notices ≡ [] }
    ensures takes { TakesEvent (load_line network.now wireless.now) net.old net.new result }
    ensures kernel { HasSameKernel net.old net.new }
{
    let ended = net.load(alloc, network, wireless);
    note(alloc, net, ended)
}

// What an event comes to that was taken, or refused.
fn note(alloc: Global, net: &mut Net, ended: Result<(), NetError>) -> Result<Taken, Memory>
    ensures ends { Ends ended net.old net.new result }
    ensures stays { (net.new.inputs ≡ net.old.inputs) × (net.new.held ≡ net.old.held) }
{
    match ended {
        Ok(()) => note_requests(alloc, net),
        Err(error) => refuse_event(alloc, error),
    }
}

// The lines of all that is to be told of requests.
fn note_requests(alloc: Global, net: &mut Net) -> Result<Taken, Memory>
    ensures told { IfOk result (λ taken. taken
        ≡ spec.asking (lines_of net.old.inputs.conf net.old.notices)) }
    ensures silent { OnOk result (net.new.notices ≡ []) }
    ensures stays { (net.new.inputs ≡ net.old.inputs) × (net.new.held ≡ net.old.held) }
{
    let Ok(lines) = lines_of_requests(alloc, net) else {
        return Err(Memory);
    };
    Ok(Taken {
        requests: Text::from_vec(lines),
        refusal: None,
    })
}

// The event is refused, where its error is told by a line.
fn refuse_event(alloc: Global, error: NetError) -> Result<Taken, Memory>
    ensures { IfOk result (IsRefusedFor (told_spec.line_error error)) }
{
    match line_error(error) {
        Some(error) => Ok(Taken::refused(alloc, error)),
        None => Err(Memory),
    }
}
