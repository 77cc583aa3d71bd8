//! Cases as data: a program reads files of cases, plays each on a stage of its own, and tells what
//! differs.
//!
//! A file of cases is text. An empty line divides its cases, and a line that begins with `#` is a
//! comment.
//!
//! ```text
//! text lan
//! | config interface 'lan'
//!
//! case a name that tells what is shown
//! > words of the first step
//! |< lan
//! = a line that the step gives
//! > words of the second step
//! ```
//!
//! `text NAME` names the bytes of the lines behind it. `case NAME` begins a case: its steps are
//! lines `> WORDS`. Behind a step stand the lines of its input, which begin with `|`, and those of
//! what it is to give, which begin with `=`. A step that gives nothing has no line of the second
//! kind. Behind the mark of such a line stands
//!
//! - nothing, or a space and TEXT: that text and a newline,
//! - `. TEXT`: that text without a newline,
//! - `x HEX`: these bytes,
//! - `* N TEXT`: that text N times, in which `{}` is the number from 0 on and `\n` a newline,
//! - `< NAME`: the bytes of a named text, of this file or of a file that the command line names.
#![tactic(auto)]

mod body;
mod case;
mod player;
mod quoted;
mod read;

pub use player::{Stage, play_files};
pub use quoted::words;
