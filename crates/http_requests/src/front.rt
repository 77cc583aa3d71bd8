ghost use Rattle.std.specs.Prelude.{◌≡◌, ◌<◌, ◌+◌, ◌++◌, ℕ, List, [], length, true, false};
ghost use Rattle.std.specs.Prelude.{IfSome, IsSome, Some, None};
ghost use Rattle.httparse.specs.Grammar.{RequestHead};
ghost use Rattle.http_requests.specs.Head.{BeginsWithHead};
ghost use Rattle.http_requests.specs.Front.{Begins, IsUnfinished, IsWhole};
ghost use Rattle.http_requests.specs.Look.{IfDecided, IfWaiting, Awaits};
ghost use Rattle.http_requests.specs.Wish.{wish_of};
ghost use Rattle.http_requests.specs.declared.head.TheConstants.{HEAD_LIMIT};
ghost use Rattle.http_requests.specs.declared.wish.TheConstants.{BODY_LIMIT};
ghost use Rattle.http_requests.specs.declared.wish.Wish.TheVariants.{Refusal};

use crate::StatusCode;
use crate::head::{Head, read_head};
use crate::wish::Wish;

/// A request in front of bytes: its head, and its body right behind that.
#[derive(Clone, Copy, Debug, PartialEq, Eq)]
pub struct Request {
    /// How many bytes the head has.
    pub head_size: usize,
    /// How many bytes the body has.
    pub body_size: usize,
    /// Whether the connection ends behind it.
    pub closes: bool,
}

/// What stands in front of the bytes that are left of a connection.
#[derive(Clone, Copy, Debug, PartialEq, Eq)]
pub enum Front {
    /// Nothing: no bytes are left.
    End,
    /// Something that is refused.
    Refused(StatusCode),
    /// A whole request.
    Whole(Request),
}

/// What stands in front of some bytes, as far as they tell.
#[derive(Clone, Copy, Debug)]
pub(crate) enum Look {
    Decided(Front),
    /// It is not decided before there are so many bytes in all.
    Waiting(usize),
}

/// What stands in front of the bytes, whatever follows them, or `None` where more bytes are needed
/// to tell. Where `are_all`, nothing follows.
pub fn first_request(bytes: &[u8], are_all: bool) -> Option<Front>
    ensures decides { (more : List ℕ) → (are_all ≡ true → more ≡ []) →
        IfSome result (Begins (bytes.now ++ more)) }
    ensures waits { are_all ≡ true → IsSome result }
    ensures prompt { (front : Front) → Begins bytes.now front → IsWhole front →
        result ≡ Some front }
    ensures refused { (head : RequestHead) (rest : List ℕ) (status : StatusCode) →
        BeginsWithHead bytes.now head rest → wish_of head ≡ Refusal status →
        result ≡ Some (Front.Refused status) }
    ensures bounded { result ≡ None → length bytes.now < HEAD_LIMIT + BODY_LIMIT }
    ensures unfinished { result ≡ None → IsUnfinished bytes.now }
{
    match look_at(bytes, are_all) {
        Look::Decided(front) => Some(front),
        Look::Waiting(_) => None,
    }
}

/// The same, but it tells how many bytes are needed at least.
pub(crate) fn look_at(bytes: &[u8], are_all: bool) -> Look
    ensures decides { (more : List ℕ) → (are_all ≡ true → more ≡ []) →
        IfDecided result (Begins (bytes.now ++ more)) }
    ensures waits { IfWaiting result (λ wanted.
        (are_all ≡ false) × Awaits bytes.now wanted) }
{
    if bytes.is_empty() {
        return if are_all {
            Look::Decided(Front::End)
        } else {
            Look::Waiting(1)
        };
    }
    match read_head(bytes) {
        Head::Read { size, wish, closes } => match wish {
            Wish::Refusal(status) => Look::Decided(Front::Refused(status)),
            Wish::Body(body_size) => {
                if bytes.len() - size >= body_size {
                    Look::Decided(Front::Whole(Request {
                        head_size: size,
                        body_size,
                        closes,
                    }))
                } else if are_all {
                    Look::Decided(Front::Refused(StatusCode::BadRequest))
                } else {
                    Look::Waiting(size + body_size)
                }
            }
        },
        Head::Open => {
            if are_all {
                Look::Decided(Front::Refused(StatusCode::BadRequest))
            } else {
                Look::Waiting(bytes.len() + 1)
            }
        }
        Head::Never => Look::Decided(Front::Refused(StatusCode::BadRequest)),
    }
}
