//! `codec_cases`: plays cases of blobs, of JSON and of frames of the message bus.
//!
//! The input of a step is bytes, of a blob, of a JSON text or of a frame, and a fault is `error
//! NUMBER TEXT`. Steps:
//!
//! - `blob`: reads a blob, and gives how many attributes it has, and a line for each: its name,
//!   `=`, and its value with its type.
//! - `rewrite`: reads a blob, and gives the bytes that are written of it, and then `size N`.
//! - `to json`: reads a blob, and gives its JSON text.
//! - `from json`: reads a JSON text, and gives the attributes as `blob` does. Behind a fault stands
//!   a line `at PATH`.
//! - `text`: gives the text that JSON gives to bytes.
//! - `size string`: the input is a name, a newline and a string. Gives `size N` of the attribute of
//!   that name and that string, or `no spelling`.
//! - `size nothing`: the same of an attribute without a value, whose name is the input.
//! - `frame KIND SEQ NAME=VALUE ..`: gives the bytes that are written of a message, or `no
//!   spelling`. The value `<` is the input.
//! - `frame size`: gives how many bytes the frame in front has, or `unfinished`.
//! - `feed`: gives the fault that the piece brings, if it brings one.
//! - `take`: gives a line for the next frame that is whole, or `none`.
//! - `take all`: gives a line for each frame that is whole.
//! - `bytes`: feeds a new feeder byte for byte, and gives a line `N: FRAME` or `N: error ..` for
//!   each that N bytes bring.
//! - `pieces`: feeds a new feeder all at once and gives what comes, and then `N cuts` where at each
//!   of N places to cut in two the same comes, or else `cut at N differs` for the first that
//!   differs.
//! - `memory`: gives the errors that tell of want of memory.
#![tactic(auto)]

mod bench;
mod blobs;
mod frames;

use bench::Bench;
use std::process::ExitCode;

fn main(rt: HostRuntime) -> anyhow::Result<ExitCode> {
    case_files::play_files::<Bench>(&rt)
}
