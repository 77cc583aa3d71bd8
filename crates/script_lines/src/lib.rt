//! The lines of a script: what each asks for, and the texts of errors and statuses that are printed
//! for it.
#![tactic(auto)]

mod arguments;
mod call_status;
mod error_line;
mod keyword;
mod line_error;
mod lines;
mod script_line;

pub use arguments::{USUAL_MTU, read_long_decimal};
pub use call_status::CallStatus;
pub use error_line::append_error_line;
pub use keyword::Keyword;
pub use line_error::LineError;
pub use lines::read_line;
pub use script_line::ScriptLine;
