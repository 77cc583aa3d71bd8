//! UCI text, the syntax of OpenWrt's configuration files: a text as lines of words, and values as
//! quoted words.
#![tactic(auto)]

mod byte_class;
mod cmd;
mod command;
mod commands;
mod extent;
mod gap;
mod keyword;
mod laws;
mod line;
mod piece;
mod quote;
mod read;
mod stop;
mod table;
mod text_error;
mod word;

pub use byte_class::ByteClass;
pub use cmd::Cmd;
pub use commands::read_commands;
pub use keyword::is_name;
pub use laws::{
    commands_or_fault, lines_have_words, no_commands_with_fault, no_fault_is_memory,
    no_reading_with_fault, one_command_fault, one_fault, one_list_of_commands, one_reading,
    reading_or_fault,
};
pub use line::Line;
pub use quote::quote_into;
pub use read::read_lines;
pub use text_error::TextError;
