//! The command line of `uci`: its options and commands as words, what it prints of packages, values
//! and staged changes, and why a command is refused.
#![tactic(auto)]

mod changes;
mod command;
mod get;
mod keyword;
mod options;
mod refusal;
mod show;
mod values;
mod words;

pub use changes::print_changes;
pub use command::{Command, read_command};
pub use get::give_path;
pub use keyword::{Keyword, Verb};
pub use options::{Field, Flag, Options};
pub use refusal::{BAD_SNAPSHOT, DISK_FAILED, OUT_OF_MEMORY, Refusal, TOO_LARGE, USAGE};
pub use show::{show_package, show_path};
pub use words::{Asked, read_words};
