//! `plane_cases`: plays cases of the whole program, `plane`, over devices in memory.
//!
//! A case has a folder of packages and a folder of staged changes, both without packages at first.
//! Its steps, with `|` for their input, are
//!
//! - `file NAME`, `staged NAME` |: these are the bytes of that file, in the folder of packages or
//!   of staged changes. A package that is put into one of them is in the other one too, where it is
//!   empty at first.
//! - `clock N ..`: the moments that the clock tells in the next run; it is 100 in the others.
//! - `failing DEVICE N ..`: the calls of these numbers fail in the next run, from 1 on. A device is
//!   `input`, `out`, `err`, `files`, `staged`, `apply` (calls of the kernel) or `environment` (its
//!   devices that come, go and change).
//! - `stopping N`: the disk of packages does N calls in the next run, and fails behind them.
//! - `word` |: the input is a word, and `words` |: its words between blanks are words, that stand
//!   behind those of the next run.
//! - `plane WORDS` |: a run of the program with these words and this input. It gives what is
//!   written to the output, then a line `err TEXT` for each line of the error output, and `status
//!   N`.
//! - `quietly WORDS` |: the same, which does not give the output. `head N` and `tail N` give the
//!   first and the last lines of what the last run wrote, and `lines` how many there are.
//! - `kernel`: how many calls the kernel did in the last run, and how many objects it holds.
//!   `calls` gives the lines of these calls, `calls TEXT` those that have this text; `objects`
//!   gives the lines that put what it holds, in the order of their bytes.
//! - `show file NAME`, `show staged NAME`: the bytes of that file, as they are.
//! - `changed`: each package that the last run changed: a line with its name and its size, and then
//!   its bytes.
//! - `apply`: `waits` where an apply waits in the folder, `restores` where it is being undone, else
//!   `none`.
//! - `each DEVICE N WORDS` |: runs over copies of the folders, in which each call of the device
//!   fails in turn. It gives a line for each way in which they end: the status, how much of the
//!   output there is, and the error output. The step is no step where there are N calls or fewer.
//! - `statuses DEVICE WORDS` |: the same, which gives a line for each status, with the numbers of
//!   the calls.
//! - `pieces WORDS` |: runs of a script whose last line, `client K bytes HEX`, is cut in two at
//!   each place. It gives how many lines are sent for each piece, a line for places that follow one
//!   another.
//! - `image NAME` |: one of the contents that a stop may leave of that file, for `stops`.
//! - `look NAME WORDS` |: a run over each folder that a stop leaves, for `stops`.
//! - `stops N WORDS` |: runs over copies of the folders that are stopped at each call of the disk
//!   of packages in turn, up to one that is done. It gives a line for each way in which they end,
//!   and for each way in which a look ends over what is left: whether the run was stopped, what
//!   `apply` is, and the name of the look. The step is no step where N folders or fewer are left.
//! - `lack_memory`: the end of a program that lacks memory before it begins.
#![tactic(auto)]

mod bench;
mod failing;
mod folder;
mod lines;
mod pieces;
mod ran;
mod stops;
mod sweeps;

use bench::Bench;
use std::process::ExitCode;

fn main(rt: HostRuntime) -> anyhow::Result<ExitCode> {
    case_files::play_files::<Bench>(&rt)
}
