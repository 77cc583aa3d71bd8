//! `plane run`: a folder is opened at a moment, its network is settled, and a script is carried out
//! to its end.
#![tactic(auto)]

mod ending;
mod lines;
mod opening;
mod rows;
mod run;
mod run_end;
mod script;

pub use run::run_script;
pub use run_end::{RowPackage, RunEnd};
pub use script::SCRIPT_LIMIT;
