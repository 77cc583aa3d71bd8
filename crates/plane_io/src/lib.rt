//! The outside: traits for what is read and written, texts and lists as values, and devices in
//! memory.
//!
//! A device tells its contents only where it can: a source in memory does, a terminal does not.
//! Every device keeps a count of its faults, and a call answers [`Failed`] only where that count
//! rose.
#![tactic(auto)]

mod append;
mod input;
mod items;
mod mem_sink;
mod mem_source;
mod outcome;
mod sink;
mod source;
mod text;

pub use append::append_text;
pub use input::{INPUT_LIMIT, InputError, read_to_end};
pub use items::Items;
pub use mem_sink::MemSink;
pub use mem_source::MemSource;
pub use outcome::{Failed, Memory};
pub use sink::Sink;
pub use source::Source;
pub use text::Text;
