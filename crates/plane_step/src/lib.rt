//! The lines of a script over the moment, the files, the sessions, the message bus and the plane of
//! interfaces: each is read, acted on, settled and answered; with the laws of what a line means and
//! what a script comes to.
#![tactic(auto)]

mod act;
mod answer;
mod carrying;
mod commands;
mod expiry;
mod laws;
mod plain_line;
mod script;
mod stop;
mod time;

pub use carrying::carry_out;
pub use laws::{one_fold, one_line, one_meaning};
pub use plain_line::act_on;
pub use script::run_lines;
pub use stop::Stop;
