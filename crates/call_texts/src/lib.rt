//! The words of a line that calls a method, and the line that tells the reply.
#![tactic(auto)]

mod arguments;
mod reply_line;

pub use arguments::{name_session, read_arguments, read_json};
pub use reply_line::append_reply;
