//! HTTP requests in the bytes of a connection, however these are cut into pieces, and the bytes of
//! responses (RFC 9110, RFC 9112).
//!
//! A request is `POST /ubus` with a body of a stated length. A head has at most [`HEAD_LIMIT`]
//! bytes and 64 fields, and a body at most [`BODY_LIMIT`] bytes.
#![tactic(auto)]

mod connection_end;
mod fields;
mod front;
mod head;
mod held;
mod laws;
mod next;
mod response;
mod status_code;
mod wish;

pub use connection_end::ConnectionEnd;
pub use front::{Front, Request, first_request};
pub use head::HEAD_LIMIT;
pub use held::Held;
pub use laws::{one_end, one_front, some_end, some_front};
pub use next::{ReadError, next_request};
pub use response::{append_answer, append_refusal};
pub use status_code::StatusCode;
pub use wish::BODY_LIMIT;
