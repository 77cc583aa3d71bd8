//! What is told of a line of a client.
ghost use Rattle.std.specs.Prelude.{◌≡◌, IfOk, OnOk};
ghost use Rattle.std.specs.Option.{option_map};
ghost use Rattle.bus_clients.specs.Bus.{part_of, opened, closed, IsTold};
ghost use Rattle.bus_lines.specs.ClientLine.{error_of, fault_error};
ghost use Rattle.bus_lines.specs.Told as spec;

use crate::gathered::Gathered;
use crate::handled::Handled;
use crate::replied::refuse_line;
use bus_clients::{ClientError, ScriptBus};
use plane_io::{Memory, Text};
use script_lines::LineError;
use std::alloc::Global;
use step_net::{Told, tell_nothing, tell_text};
use ubus_frames::FrameError;

/// A client opens, as this user and group.
pub(crate) fn open_client(
    alloc: Global,
    bus: &mut ScriptBus,
    client: u32,
    user: &Text,
    group: &Text,
) -> Result<Handled, Memory>
    ensures { IfOk result (spec.TellsOf (opened (part_of bus.old) client user.now group.now)
        (part_of bus.old) (part_of bus.new)) }
{
    let mut sent = Vec::new(alloc);
    let answered = bus.open(client, user.as_bytes(), group.as_bytes(), &mut sent);
    tell_answer(alloc, answered, sent)
}

/// A client leaves.
pub(crate) fn close_client(
    alloc: Global,
    bus: &mut ScriptBus,
    client: u32,
) -> Result<Handled, Memory>
    ensures { IfOk result (spec.TellsOf (closed (part_of bus.old) client)
        (part_of bus.old) (part_of bus.new)) }
{
    let mut sent = Vec::new(alloc);
    let answered = bus.close(client, &mut sent);
    tell_answer(alloc, answered, sent)
}

fn tell_answer(
    alloc: Global,
    answered: Result<(), ClientError>,
    sent: Vec<u8>,
) -> Result<Handled, Memory>
    ensures { IfOk result (spec.TellsAnswer answered sent.items) }
{
    match answered {
        Ok(()) => Ok(Handled {
            sent: Text::from_vec(sent),
            told: tell_nothing(alloc),
        }),
        Err(error) => refuse_client(alloc, error),
    }
}

/// A line of a client that is refused.
pub(crate) fn refuse_client(alloc: Global, error: ClientError) -> Result<Handled, Memory>
    ensures { IfOk result (spec.RefusesClient error) }
{
    match error {
        ClientError::Memory => Err(Memory),
        _ => refuse_line(alloc, &line_error(error)),
    }
}

/// What was gathered of the frames of a line is told. A fault behind them closes the client, and is
/// the error of the line where no refusal came before.
pub(crate) fn end_bytes(
    alloc: Global,
    bus: &mut ScriptBus,
    client: u32,
    fault: Option<FrameError>,
    mut gathered: Gathered,
) -> Result<Handled, Memory>
    ensures { IfOk result (spec.EndsBytes (part_of bus.old) client fault gathered
        (part_of bus.new)) }
{
    let error = close_at(bus, client, fault, &mut gathered.sent)?;
    tell_gathered(alloc, gathered, error)
}

// A fault closes the client.
fn close_at(
    bus: &mut ScriptBus,
    client: u32,
    fault: Option<FrameError>,
    sent: &mut Vec<u8>,
) -> Result<Option<LineError>, Memory>
    ensures told { OnOk result (IsTold (spec.faulted (part_of bus.old) client fault)
        (part_of bus.new) sent.old.items sent.new.items) }
    ensures error { IfOk result (λ error. error ≡ option_map fault_error fault) }
{
    let Some(fault) = fault else {
        return Ok(None);
    };
    match bus.close(client, sent) {
        Err(ClientError::Memory) => Err(Memory),
        _ => Ok(Some(fault_error(fault))),
    }
}

fn tell_gathered(
    alloc: Global,
    gathered: Gathered,
    error: Option<LineError>,
) -> Result<Handled, Memory>
    ensures { IfOk result (spec.TellsGathered gathered error) }
{
    let Gathered {
        sent,
        requests,
        refusal,
    } = gathered;
    let shown = Text::from_vec(requests);
    let told = match refusal {
        Some(line) => Told {
            shown,
            refusal: Some(line),
        },
        None => tell_text(alloc, shown, error)?,
    };
    Ok(Handled {
        sent: Text::from_vec(sent),
        told,
    })
}

/// The refusal of a line of a client.
fn line_error(error: ClientError) -> LineError
    ensures { result ≡ error_of error }
{
    match error {
        ClientError::ClientOpen => LineError::ClientOpen,
        ClientError::NoClient => LineError::NoClient,
        ClientError::Full => LineError::Full,
        ClientError::Memory => LineError::Memory,
    }
}

/// The fault of bytes, as a line tells it.
fn fault_error(fault: FrameError) -> LineError
    ensures { result ≡ fault_error fault }
{
    match fault {
        FrameError::Version { .. } => LineError::Version,
        FrameError::TooLong { .. } => LineError::TooLong,
        FrameError::BadBlob(_) => LineError::BadBlob,
        FrameError::Memory => LineError::Memory,
    }
}
