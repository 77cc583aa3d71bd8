//! The inputs after an event, and what is to be told of it.
ghost use Rattle.std.specs.Prelude.{◌≡◌, ◌≤◌, ◌^◌, IfOk};
ghost use Rattle.std.specs.VecDeque.{deque_capacity};
ghost use Rattle.net_rules.specs.After as spec;

use net_after::after;
use net_rules::{Event, Inputs, Notice};
use plane_io::{Items, Memory};
use std::alloc::Global;
use std::collections::VecDeque;

/// The numbers of requests are below this. Where they run out, events want memory.
const MOST_NEXT: u64 = 1 << 63;

/// The inputs after an event, where numbers of requests do not run out.
pub(crate) fn inputs_after(alloc: Global, before: Inputs, event: Event) -> Result<Inputs, Memory>
    ensures after { IfOk result (λ now. now ≡ spec.after before event) }
    ensures next { IfOk result (λ now. now.next ≤ 2 ^ 63) }
{
    if before.next >= MOST_NEXT {
        return Err(Memory);
    }
    let now = after(alloc, before, event)?;
    if now.next > MOST_NEXT {
        return Err(Memory);
    }
    Ok(now)
}

/// What is to be told, with room for so much in all.
pub(crate) fn with_room(told: Items<Notice>, count: usize) -> Result<VecDeque<Notice>, Memory>
    ensures told { IfOk result (λ notices. notices.items ≡ told) }
    ensures room { IfOk result (λ notices. count ≤ deque_capacity notices) }
{
    let mut notices = VecDeque::from(told.into_vec());
    notices.reserve(count)?;
    Ok(notices)
}
