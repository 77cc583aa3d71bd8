//! What is told of a line that calls a method.
ghost use Rattle.std.specs.Prelude.{◌≡◌, IfOk};
ghost use Rattle.bus_lines.specs.CallLine.{status_at};
ghost use Rattle.bus_lines.specs.Replied as spec;

use crate::handled::Handled;
use call_texts::append_reply;
use plane_io::{Memory, Text};
use rpc_objects::{LocalAnswer, Outcome};
use script_lines::{CallStatus, LineError};
use std::alloc::Global;
use step_net::{Told, refuse, tell_text};

/// What comes of a call that is answered so, and asks nothing.
pub(crate) fn quiet(alloc: Global, answer: LocalAnswer) -> Outcome
    ensures { spec.IsQuiet answer result }
{
    Outcome {
        answer,
        requests: Text::from_vec(Vec::new(alloc)),
        refusal: None,
        has_created: false,
    }
}

/// Tells of a call: the requests and the reply, and the status of the reply or the refusal of a
/// reload.
pub(crate) fn tell_outcome(alloc: Global, outcome: Outcome) -> Result<Handled, Memory>
    ensures { IfOk result (spec.TellsOutcome outcome) }
{
    let Outcome {
        answer,
        requests,
        refusal,
        ..
    } = outcome;
    let mut shown = requests.into_vec();
    append_reply(alloc, answer.status, &answer.payload, &mut shown)?;
    let told = tell_reply(alloc, Text::from_vec(shown), answer.status, refusal)?;
    Ok(Handled {
        sent: Text::from_vec(Vec::new(alloc)),
        told,
    })
}

// This is shown. A status that is not 0 refuses the line, and else this refusal does, if there is
// one.
fn tell_reply(
    alloc: Global,
    shown: Text,
    status: u32,
    refusal: Option<Text>,
) -> Result<Told, Memory>
    ensures { IfOk result (spec.TellsReply shown status refusal) }
{
    match status_of(status) {
        Some(status) => tell_text(alloc, shown, Some(LineError::Status(status))),
        None => Ok(Told { shown, refusal }),
    }
}

/// A line is refused with this error.
pub(crate) fn refuse_line(alloc: Global, error: &LineError) -> Result<Handled, Memory>
    ensures { IfOk result (spec.TellsError error.now) }
{
    Ok(Handled {
        sent: Text::from_vec(Vec::new(alloc)),
        told: refuse(alloc, error)?,
    })
}

// The status of a number, if it is one.
fn status_of(number: u32) -> Option<CallStatus>
    ensures { result ≡ status_at number }
{
    match number {
        1 => Some(CallStatus::InvalidCommand),
        2 => Some(CallStatus::InvalidArgument),
        3 => Some(CallStatus::MethodNotFound),
        4 => Some(CallStatus::NotFound),
        5 => Some(CallStatus::NoData),
        6 => Some(CallStatus::PermissionDenied),
        7 => Some(CallStatus::Timeout),
        8 => Some(CallStatus::NotSupported),
        9 => Some(CallStatus::UnknownError),
        10 => Some(CallStatus::ConnectionFailed),
        11 => Some(CallStatus::NoMemory),
        _ => None,
    }
}
