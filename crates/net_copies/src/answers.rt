ghost use Rattle.std.specs.Prelude.{◌≡◌, IfOk};

use crate::copies::copy_items;
use net_rules::Answer;
use plane_io::Memory;
use std::alloc::Global;

/// The same answer, in memory of its own.
pub fn copy_answer(alloc: Global, answer: &Answer) -> Result<Answer, Memory>
    ensures { IfOk result (λ copy. copy ≡ answer.now) }
{
    Ok(Answer {
        up: answer.up,
        device: answer.device,
        addresses: copy_items(alloc, answer.addresses.as_slice())?,
        routes: copy_items(alloc, answer.routes.as_slice())?,
    })
}
