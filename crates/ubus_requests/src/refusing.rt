ghost use Rattle.std.specs.Prelude.{ℕ, Option, IfOk};
ghost use Rattle.ubus_table.specs.Table.{Table};
ghost use Rattle.ubus_table.specs.Refusal.{refused, refused_if_asked, numbered, denial, says};
ghost use Rattle.ubus_send.specs.Fits.{fits};
ghost use Rattle.ubus_requests.specs.Plan.{Plans};

use crate::plan::{Plan, says};
use plane_io::Memory;
use std::alloc::Global;
use ubus_frames::Frame;
use ubus_send::{denied, denied_if_asked, refusal, refusal_if_asked};

/// A message is refused.
pub fn refuse(alloc: Global, client: u32, request: &Frame, code: u32) -> Result<Plan, Memory>
    ensures { (table : Table) (place : Option ℕ) → IfOk result (λ plan. Plans
        (says table (refused fits place client request.now (numbered code))) table plan) }
{
    let out = refusal(alloc, client, request, code)?;
    Ok(says(out))
}

/// A message is denied: a function of an object.
pub fn deny(
    alloc: Global,
    client: u32,
    request: &Frame,
    function: &[u8],
    object: &[u8],
) -> Result<Plan, Memory>
    ensures { (table : Table) (place : Option ℕ) → IfOk result (λ plan. Plans
        (says table (refused fits place client request.now (denial function.now object.now)))
        table plan) }
{
    let out = denied(alloc, client, request, function, object)?;
    Ok(says(out))
}

/// A refusal, in silence where no reply is asked for.
pub fn refuse_if_asked(
    alloc: Global,
    client: u32,
    request: &Frame,
    code: u32,
) -> Result<Plan, Memory>
    ensures { (table : Table) (place : Option ℕ) → IfOk result (λ plan. Plans
        (says table (refused_if_asked fits place client request.now (numbered code))) table plan) }
{
    let out = refusal_if_asked(alloc, client, request, code)?;
    Ok(says(out))
}

/// A denial, in silence where no reply is asked for.
pub fn deny_if_asked(
    alloc: Global,
    client: u32,
    request: &Frame,
    function: &[u8],
    object: &[u8],
) -> Result<Plan, Memory>
    ensures { (table : Table) (place : Option ℕ) → IfOk result (λ plan. Plans
        (says table
        (refused_if_asked fits place client request.now (denial function.now object.now)))
        table plan) }
{
    let out = denied_if_asked(alloc, client, request, function, object)?;
    Ok(says(out))
}
