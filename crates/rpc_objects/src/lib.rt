//! Calls of the local objects on the message bus: what `session` and `uci` answer, and one call of
//! them or of an object of the network, carried out on what it moves.
#![tactic(auto)]

mod call;
mod local_answer;
mod local_object;
mod outcome;
mod session_call;
mod uci_answer;
mod uci_call;

pub use call::call_object;
pub use local_answer::LocalAnswer;
pub use local_object::LocalObject;
pub use outcome::Outcome;
pub use session_call::{SessionAnswer, answer_session};
pub use uci_answer::{CallStop, UciAnswer, answer_uci};
