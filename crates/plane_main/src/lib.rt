//! The program's one call: from words and devices to kernel calls, their lines and a status.
#![tactic(auto)]

mod carry_out;
mod command;
mod ending;
mod generated;
mod laws;
mod locations;
mod page;
mod program;
mod report;
mod run_words;
mod script;
mod start;
mod texts;

pub use command::{Command, read_command};
pub use laws::{named_numbers, named_words, one_command, one_network};
pub use locations::{Locations, places};
pub use page::Page;
pub use program::{lack_memory, plane};
pub use run_words::{EMPTY_ACL, RunAsked, STAGED_FOLDER};
