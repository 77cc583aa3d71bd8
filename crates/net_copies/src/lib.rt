//! Copies of rows, options and answers, in memory of their own.
#![tactic(auto)]

mod answers;
mod copies;
mod rows;

pub use answers::copy_answer;
pub use copies::{copy_items, copy_option, copy_options};
pub use rows::copy_conf;
