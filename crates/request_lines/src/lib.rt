//! The lines that tell of requests: `ask` for one that was opened, `drop` for one that was lost.
#![tactic(auto)]

mod option_data;
mod request_line;

pub use option_data::{options_text, radio_text};
pub use request_line::append_request_line;
