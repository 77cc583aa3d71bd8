ghost use Rattle.std.specs.Prelude.{◌≡◌};
ghost use Rattle.rpc_objects.specs.Calls.{of_network};
ghost use Rattle.rpc_objects.specs.Outcome as spec;

use crate::{LocalAnswer, SessionAnswer};
use blob_codec::Attr;
use plane_io::Text;
use rpc_network::NetAnswer;
use script_lines::CallStatus;
use sqlite_items::Items;
use std::alloc::Global;
use step_net::Told;

/// What comes of a call of a local object.
#[derive(Drop)]
pub struct Outcome {
    pub answer: LocalAnswer,
    /// The lines of the requests that it brings.
    pub requests: Text,
    /// The line that tells why the reload behind an apply or a rollback was refused.
    pub refusal: Option<Text>,
    /// Whether the call has made a session, and so used its random word up.
    pub has_created: bool,
}

impl Outcome {
    /// The plane of interfaces is asked nothing.
    pub(crate) fn quiet(alloc: Global, answer: LocalAnswer) -> Outcome
        ensures { result ≡ spec.quiet answer }
    {
        Outcome {
            answer,
            requests: Text::from_vec(Vec::new(alloc)),
            refusal: None,
            has_created: false,
        }
    }

    /// Of a call of the object `session`.
    pub(crate) fn of_session(alloc: Global, told: SessionAnswer) -> Outcome
        ensures { result ≡ spec.of_session told }
    {
        Outcome {
            answer: told.answer,
            requests: Text::from_vec(Vec::new(alloc)),
            refusal: None,
            has_created: told.has_created,
        }
    }

    /// Of a call behind which the files were loaded anew.
    pub(crate) fn of_reload(answer: LocalAnswer, told: Told) -> Outcome
        ensures { result ≡ spec.of_reload answer told }
    {
        Outcome {
            answer,
            requests: told.shown,
            refusal: told.refusal,
            has_created: false,
        }
    }

    /// Of a call of an object of the network.
    pub(crate) fn of_network(told: NetAnswer) -> Outcome
        ensures { result ≡ spec.of_net told }
    {
        let NetAnswer { requests, answer } = told;
        Outcome {
            answer: network_answer(answer),
            requests,
            refusal: None,
            has_created: false,
        }
    }
}

fn network_answer(answer: Result<Items<Attr>, CallStatus>) -> LocalAnswer
    ensures { result ≡ of_network answer }
{
    match answer {
        Ok(payload) => LocalAnswer::told(payload),
        Err(status) => LocalAnswer::refused(u32::from(status.number())),
    }
}
