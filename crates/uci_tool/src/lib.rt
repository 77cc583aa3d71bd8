//! The `uci` command over a store, and one such command over a folder that is opened at the clock's
//! moment.
#![tactic(auto)]

mod adding;
mod alone;
mod committing;
mod importing;
mod line;
mod merging;
mod paths;
mod report;
mod run;
mod seeing;
mod shut;
mod staging;
mod stop;
mod texts;
mod tool;

pub use alone::carry_words;
pub use report::Report;
pub use run::run_uci;
pub use shut::Shut;
pub use stop::Stop;
pub use tool::{UciEnd, uci};
