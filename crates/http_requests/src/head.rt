ghost use Rattle.std.specs.Prelude.{◌≡◌, ◌≤◌, length, map, All};
ghost use Rattle.httparse.specs.Spans.{IsHeaderWithin, header_bytes};
ghost use Rattle.http_requests.specs.Head.{IsHead};
ghost use Rattle.http_requests.specs.Wish as spec;

use crate::fields::asks_for_close;
use crate::wish::{Wish, read_wish};
use httparse::Status;
use httparse::spans::{EMPTY_HEADER_SPAN, HeaderSpan, parse_request};

/// The most bytes of a head.
pub const HEAD_LIMIT: usize = 8192;

/// What stands in front of bytes as the head of a request.
#[derive(Clone, Copy, Debug)]
pub(crate) enum Head {
    /// A head.
    Read {
        size: usize,
        wish: Wish,
        /// Whether the connection ends behind the request.
        closes: bool,
    },
    /// No head yet, but the bytes may be the front of one.
    Open,
    /// No head, whatever follows.
    Never,
}

/// What stands in front of the bytes as the head of a request.
pub(crate) fn read_head(bytes: &[u8]) -> Head
    ensures { IsHead bytes.now result }
{
    let mut headers = [EMPTY_HEADER_SPAN; 64];
    let (front, _rest) = bytes.split_at(bytes.len().min(HEAD_LIMIT));
    match parse_request(front, &mut headers) {
        Ok(Status::Complete(head)) => {
            let (written, _room) = headers.split_at(head.headers);
            Head::Read {
                size: head.len,
                wish: read_wish(front, &head, written),
                closes: closes_after(front, head.version, written),
            }
        }
        Ok(Status::Partial) => {
            if bytes.len() >= HEAD_LIMIT {
                Head::Never
            } else {
                Head::Open
            }
        }
        Err(_) => Head::Never,
    }
}

/// Whether the connection ends behind a request of this minor version with these fields.
fn closes_after(buf: &[u8], minor: u8, headers: &[HeaderSpan]) -> bool
    requires { All (IsHeaderWithin (length buf.now)) headers.now }
    ensures { result ≡ spec.closes_after minor (map (header_bytes buf.now) headers.now) }
{
    if minor == 0 {
        return true;
    }
    asks_for_close(buf, headers)
}
