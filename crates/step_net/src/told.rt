ghost use Rattle.std.specs.Prelude.{◌≡◌, [], IfOk};
ghost use Rattle.step_net.specs.Taken.{telling_in, Tells, IsToldOf};
ghost use Rattle.step_net.specs.Told as spec;

use crate::taken::Taken;
use net_plane::NetError;
use plane_io::{Memory, Text};
use script_lines::{LineError, append_error_line};
use std::alloc::Global;

/// What is to be told of a line behind its calls: the lines of requests and the reply, and the line
/// of its refusal, where it is refused.
#[derive(Drop)]
pub struct Told {
    pub shown: Text,
    pub refusal: Option<Text>,
}

/// Nothing is to be told but that the line is ok.
pub fn tell_nothing(alloc: Global) -> Told
    ensures { telling_in result ≡ spec.shown [] }
{
    Told {
        shown: Text::from_vec(Vec::new(alloc)),
        refusal: None,
    }
}

/// This is shown, and then the line may be refused.
///
/// # Errors
///
/// Want of memory.
pub fn tell_text(alloc: Global, shown: Text, refusal: Option<LineError>) -> Result<Told, Memory>
    ensures { IfOk result (λ told. telling_in told ≡ spec.telling shown refusal) }
{
    let Some(error) = refusal else {
        return Ok(Told {
            shown,
            refusal: None,
        });
    };
    let mut line = Vec::new(alloc);
    append_error_line(&error, &mut line)?;
    Ok(Told {
        shown,
        refusal: Some(Text::from_vec(line)),
    })
}

/// A line is told of an event: its requests are shown, or the line is refused.
///
/// # Errors
///
/// Want of memory, for the event or for what is to be told of it.
pub fn tell(alloc: Global, taken: Result<Taken, Memory>) -> Result<Told, Memory>
    ensures { IsToldOf taken result }
{
    let Ok(taken) = taken else {
        return Err(Memory);
    };
    tell_text(alloc, taken.requests, taken.refusal)
}

/// The line is refused.
///
/// # Errors
///
/// Want of memory.
pub fn refuse(alloc: Global, error: &LineError) -> Result<Told, Memory>
    ensures { IfOk result (λ told. telling_in told ≡ spec.refused error.now) }
{
    let mut line = Vec::new(alloc);
    append_error_line(error, &mut line)?;
    Ok(Told {
        shown: Text::from_vec(Vec::new(alloc)),
        refusal: Some(Text::from_vec(line)),
    })
}

/// The line is refused, where its error is told by a line.
///
/// # Errors
///
/// Want of memory.
pub(crate) fn refuse_or(alloc: Global, error: NetError) -> Result<Told, Memory>
    ensures { IfOk result (Tells (spec.line_error error)) }
{
    match line_error(error) {
        Some(error) => refuse(alloc, &error),
        None => Err(Memory),
    }
}

/// The error of the plane, as a line tells it. Two are told by no line.
pub fn line_error(error: NetError) -> Option<LineError>
    ensures { result ≡ spec.line_error error }
{
    match error {
        NetError::NoInterface => Some(LineError::NoInterface),
        NetError::Stale { given, current } => Some(LineError::Stale { given, current }),
        NetError::NoDevice => Some(LineError::NoDevice),
        NetError::KernelFailed => Some(LineError::KernelFailed),
        NetError::Known => Some(LineError::Known),
        NetError::WrongPorts { wanted } => Some(LineError::WrongPorts { wanted }),
        NetError::Limit { number } => Some(LineError::Limit { number }),
        NetError::NoRadio => Some(LineError::NoRadio),
        NetError::WriteFailed | NetError::Memory => None,
    }
}
