ghost use Rattle.std.specs.Prelude.{◌≡◌, [], Err, IfOk};
ghost use Rattle.rpc_network.specs.Answered as spec;
ghost use Rattle.rpc_network.specs.Told.{IsAnswerTo, TellsError};

use blob_codec::Attr;
use net_plane::NetError;
use plane_io::{Memory, Text};
use script_lines::{CallStatus, LineError};
use sqlite_items::Items;
use std::alloc::Global;
use step_net::{Taken, line_error};

/// What comes of a call: the lines of the requests that it brings, and its payload or why it is
/// refused.
#[derive(Drop)]
pub struct NetAnswer {
    pub requests: Text,
    pub answer: Result<Items<Attr>, CallStatus>,
}

/// Nothing is asked, and the call is refused.
pub fn refuse(alloc: Global, status: CallStatus) -> NetAnswer
    ensures { result ≡ spec.refused_as status }
{
    NetAnswer {
        requests: Text::from_vec(Vec::new(alloc)),
        answer: Err(status),
    }
}

/// A call is answered by what its event came to: the lines of requests and an empty payload, or the
/// status of its refusal.
///
/// # Errors
///
/// Want of memory, which the event met.
pub(crate) fn answer_event(alloc: Global, taken: Result<Taken, Memory>) -> Result<NetAnswer, Memory>
    ensures { IsAnswerTo taken result }
{
    let Ok(taken) = taken else {
        return Err(Memory);
    };
    Ok(NetAnswer {
        requests: taken.requests,
        answer: match taken.refusal {
            Some(error) => Err(status_of(error)),
            None => Ok(Items::new(alloc)),
        },
    })
}

/// The call is refused, where the error of the plane is a status.
///
/// # Errors
///
/// Want of memory.
pub(crate) fn refuse_for(alloc: Global, error: NetError) -> Result<NetAnswer, Memory>
    ensures { IfOk result (TellsError error) }
{
    match line_error(error) {
        Some(error) => Ok(refuse(alloc, status_of(error))),
        None => Err(Memory),
    }
}

// The status of a refusal.
fn status_of(error: LineError) -> CallStatus
    ensures { result ≡ spec.status_of error }
{
    match error {
        LineError::NoInterface | LineError::NoDevice | LineError::NoRadio => CallStatus::NotFound,
        LineError::Stale { .. }
        | LineError::Known
        | LineError::WrongPorts { .. }
        | LineError::Limit { .. }
        | LineError::Parse => CallStatus::InvalidArgument,
        _ => CallStatus::UnknownError,
    }
}
