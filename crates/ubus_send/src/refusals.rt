ghost use Rattle.std.specs.Prelude.{◌≡◌, ℕ, Option, IfOk};
ghost use Rattle.ubus_table.specs.Refusal.{refused, refused_if_asked, numbered, denial};
ghost use Rattle.ubus_send.specs.Fits.{fits};
ghost use Rattle.ubus_send.specs.Out.{out_of};

use crate::outbox::{Outgoing, answered, send_answer, send_if_fits};
use crate::{denial_data, is_set};
use plane_io::{Items, Memory};
use std::alloc::Global;
use ubus_frames::Frame;

/// A message is refused.
pub fn refusal(
    alloc: Global,
    client: u32,
    request: &Frame,
    code: u32,
) -> Result<Items<Outgoing>, Memory>
    ensures { (place : Option ℕ) → IfOk result (λ out. out
        ≡ out_of (refused fits place client request.now (numbered code))) }
{
    answered(alloc, client, request, code)
}

/// A message is denied: a function of an object.
#[tactic(auto, using(crate::proofs::OutLemmas::out_more))]
pub fn denied(
    alloc: Global,
    client: u32,
    request: &Frame,
    function: &[u8],
    object: &[u8],
) -> Result<Items<Outgoing>, Memory>
    ensures { (place : Option ℕ) → IfOk result (λ out. out
        ≡ out_of (refused fits place client request.now (denial function.now object.now))) }
{
    let mut out = Items::new(alloc);
    let frame = denial_data(alloc, request, function, object)?;
    send_if_fits(&mut out, client, frame)?;
    send_answer(&mut out, client, request, 6)?;
    Ok(out)
}

/// A refusal, in silence where no reply is asked for.
pub fn refusal_if_asked(
    alloc: Global,
    client: u32,
    request: &Frame,
    code: u32,
) -> Result<Items<Outgoing>, Memory>
    ensures { (place : Option ℕ) → IfOk result (λ out. out
        ≡ out_of (refused_if_asked fits place client request.now (numbered code))) }
{
    if is_set(request.no_reply) {
        return Ok(Items::new(alloc));
    }
    refusal(alloc, client, request, code)
}

/// A denial, in silence where no reply is asked for.
pub fn denied_if_asked(
    alloc: Global,
    client: u32,
    request: &Frame,
    function: &[u8],
    object: &[u8],
) -> Result<Items<Outgoing>, Memory>
    ensures { (place : Option ℕ) → IfOk result (λ out. out
        ≡ out_of (refused_if_asked fits place client request.now
        (denial function.now object.now))) }
{
    if is_set(request.no_reply) {
        return Ok(Items::new(alloc));
    }
    denied(alloc, client, request, function, object)
}
