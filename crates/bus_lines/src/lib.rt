//! Lines of a script that call methods of local objects, and lines of clients of the message bus.
#![tactic(auto)]

mod call_line;
mod caller_line;
mod callers;
mod calling;
mod carrying;
mod client_line;
mod frames;
mod gathered;
mod handled;
mod replied;
mod told;

pub use caller_line::{CallWords, CallerLine};
pub use callers::{Callers, SpareWord};
pub use carrying::carry_caller_line;
pub use handled::Handled;
