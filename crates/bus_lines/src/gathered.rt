//! What is gathered of the frames of a line.
ghost use Rattle.std.specs.Prelude.{◌≡◌, ◌++◌, OnOk, IfOk, [], None};
ghost use Rattle.ubus_table.specs.Served.{local_reply};
ghost use Rattle.bus_clients.specs.Bus.{part_of, came_by};
ghost use Rattle.bus_lines.specs.Did.{first_of};
ghost use Rattle.bus_lines.specs.Gathered as spec;

use bus_clients::ScriptBus;
use plane_io::{Memory, Text};
use rpc_objects::{LocalAnswer, Outcome};
use std::alloc::Global;
use ubus_table::LocalCall;

/// The lines of sends, the lines of requests, and the line of the first refusal.
#[derive(Drop)]
pub(crate) struct Gathered {
    pub(crate) sent: Vec<u8>,
    pub(crate) requests: Vec<u8>,
    pub(crate) refusal: Option<Text>,
}

impl Gathered {
    /// Nothing yet.
    pub(crate) fn new(alloc: Global) -> Gathered
        ensures sent { result.sent.items ≡ [] }
        ensures requests { result.requests.items ≡ [] }
        ensures refusal { result.refusal ≡ None }
    {
        Gathered {
            sent: Vec::new(alloc),
            requests: Vec::new(alloc),
            refusal: None,
        }
    }

    /// The answer to a call goes to its caller, and what else comes of it is gathered.
    pub(crate) fn reply(
        &mut self,
        bus: &mut ScriptBus,
        call: &LocalCall,
        outcome: Outcome,
    ) -> Result<(), Memory>
        ensures { OnOk result (spec.HasReplied
            (came_by (part_of bus.old) (local_reply call.now.caller call.now.seq call.now.object
            outcome.answer.status outcome.answer.payload))
            (part_of bus.new) self.old self.new outcome) }
    {
        let Outcome {
            answer,
            requests,
            refusal,
            ..
        } = outcome;
        self.requests.extend_from_slice(requests.as_bytes())?;
        self.refuse(refusal);
        let LocalAnswer { status, payload } = answer;
        bus.reply(call, status, payload, &mut self.sent)
    }

    /// A refusal is kept where none came before.
    fn refuse(&mut self, refusal: Option<Text>)
        ensures sent { self.new.sent ≡ self.old.sent }
        ensures requests { self.new.requests ≡ self.old.requests }
        ensures refusal { self.new.refusal ≡ first_of self.old.refusal refusal }
    {
        if self.refusal.is_none() {
            self.refusal = refusal;
        }
    }
}
