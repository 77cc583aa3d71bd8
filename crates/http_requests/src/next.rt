ghost use Rattle.std.specs.Prelude.{◌≡◌, ◌≤◌, ◌<◌, ◌+◌, ◌++◌, ℕ, List, [], length, true, false};
ghost use Rattle.std.specs.Prelude.{Err, IfOk};
ghost use Rattle.plane_words.specs.Causes.{Rose};
ghost use Rattle.http_requests.specs.Front.{Begins, IsWhole};
ghost use Rattle.http_requests.specs.Look.{IfDecided, IfWaiting, Awaits};
ghost use Rattle.http_requests.specs.Next.{Keeps, StandsBefore};
ghost use Rattle.http_requests.specs.declared.front.Front.{Front};

use crate::Held;
use crate::front::{Front, Look, look_at};
use plane_io::Source;
use thiserror::Error;

/// How many bytes are read at once.
const PIECE: usize = 8192;

/// Why no request was read.
#[derive(Clone, Copy, Debug, Error)]
pub enum ReadError {
    /// The source failed.
    #[error("read failed")]
    ReadFailed,
    /// There was not enough memory.
    #[error("out of memory")]
    Memory,
}

/// What stands in front of what is held and what the source has left. It reads until that is
/// decided, and what it reads is held. A request stays held until it is taken off.
///
/// # Errors
///
/// `ReadFailed` where a call of the source failed, and want of memory.
pub fn next_request<S: Source>(held: &mut Held, input: &mut S) -> Result<Front, ReadError>
    ensures front { IfOk result (λ front.
        StandsBefore (S.left input.old) held.old front) }
    ensures held { IfOk result (λ front. Begins held.new front) }
    ensures kept { IfOk result (λ front.
        Keeps (S.left input.old) (S.left input.new) held.old held.new) }
    ensures calm { (front : Front) → Begins held.old front → IsWhole front →
        (input.new ≡ input.old) × (held.new ≡ held.old) }
    ensures bounded { length held.old ≤ 8192 + 1048576 + 8192 →
        length held.new ≤ 8192 + 1048576 + 8192 }
    ensures read_failed { result ≡ Err ReadError.ReadFailed →
        Rose (S.faults input.old) (S.faults input.new) }
    ensures later { S.faults input.old ≤ S.faults input.new }
{
    let mut ended = false;
    let mut wanted = 0;
    let mut piece = [0u8; PIECE];
    loop {
        match look_again(held.bytes(), ended, wanted) {
            Look::Decided(front) => return Ok(front),
            Look::Waiting(least) => wanted = least,
        }
        let Ok(count) = input.read(&mut piece) else {
            return Err(ReadError::ReadFailed);
        };
        if count == 0 {
            ended = true;
        } else {
            let (given, _room) = piece.split_at(count);
            let Ok(()) = held.add(given) else {
                return Err(ReadError::Memory);
            };
        }
    }
}

/// What stands in front of the bytes, as far as they tell. Where they are fewer than are waited
/// for, no head is read.
fn look_again(bytes: &[u8], are_all: bool, wanted: usize) -> Look
    requires { length bytes.now < wanted → Awaits bytes.now wanted }
    ensures decides { (more : List ℕ) → (are_all ≡ true → more ≡ []) →
        IfDecided result (Begins (bytes.now ++ more)) }
    ensures waits { IfWaiting result (λ least.
        (are_all ≡ false) × Awaits bytes.now least) }
{
    if are_all {
        return look_at(bytes, true);
    }
    if bytes.len() < wanted {
        return Look::Waiting(wanted);
    }
    look_at(bytes, false)
}
