ghost use Rattle.std.specs.Prelude.{◌≡◌, ◌≤◌, length, map, All};
ghost use Rattle.httparse.specs.Spans.{IsWithin, IsHeaderWithin, header_bytes, span_bytes};
ghost use Rattle.http_requests.specs.Wish as spec;

use crate::StatusCode;
use crate::fields::body_length;
use httparse::spans::{HeaderSpan, RequestSpans};

/// The most bytes of a body.
pub const BODY_LIMIT: usize = 1_048_576;

/// What a head comes to.
#[derive(Clone, Copy, Debug, PartialEq, Eq)]
pub(crate) enum Wish {
    Refusal(StatusCode),
    /// A body of so many bytes follows.
    Body(usize),
}

/// What the head of these spans comes to.
pub(crate) fn read_wish(buf: &[u8], head: &RequestSpans, headers: &[HeaderSpan]) -> Wish
    requires method { IsWithin (length buf.now) head.now.method }
    requires target { IsWithin (length buf.now) head.now.path }
    requires fields { All (IsHeaderWithin (length buf.now)) headers.now }
    ensures { result ≡ spec.wish (span_bytes buf.now head.now.method)
        (span_bytes buf.now head.now.path) (map (header_bytes buf.now) headers.now) }
{
    if head.method.of(buf) != b"POST".as_slice() {
        return Wish::Refusal(StatusCode::MethodNotAllowed);
    }
    if head.path.of(buf) != b"/ubus".as_slice() {
        return Wish::Refusal(StatusCode::NotFound);
    }
    match body_length(buf, headers) {
        Some(size) => {
            if size > BODY_LIMIT as u64 {
                return Wish::Refusal(StatusCode::ContentTooLarge);
            }
            Wish::Body(size as usize)
        }
        None => Wish::Refusal(StatusCode::LengthRequired),
    }
}
