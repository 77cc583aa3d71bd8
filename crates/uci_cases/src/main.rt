//! `uci_cases`: plays cases of UCI texts, packages, staged changes and the `uci` command from
//! files, and tells which differ.
//!
//! Steps on texts, whose input is the text:
//! - `lines`: the number of each line and its words, behind bars.
//! - `commands`: the number of each command and what it is made of, behind bars.
//! - `quote`: the bytes of the input as a quoted word.
//!
//! Steps on a package:
//! - `package NAME`: reads the input as the package of this name, keeps it and shows it: a line for
//!   each section, with its name, `:` or, where it is anonymous, `@`, its type, and its options,
//!   items of lists in brackets.
//! - `show`: shows it again. `made`: how many sections were made. `copy`: a copy takes its place.
//! - `print`, `print header`, `print names`, `print header names`: its text.
//! - `path PATH`: where the path leads in it.
//! - `anonymous ORDINAL TYPE`: the name of an anonymous section.
//!
//! Steps on staged changes:
//! - `deltas PACKAGE`: keeps the changes of this package in the input, a delta file, and prints
//!   them as such a file.
//! - `changes`: the same as `uci changes` shows them.
//! - `apply`: applies them to the package, and tells of each how that went. `apply-all`: the same
//!   in one call.
//! - `apply KIND SECTION`, `apply KIND SECTION OPTION`: applies one change, whose value is the
//!   input. The kinds are `set`, `remove`, `add`, `rename`, `reorder`, `list-add` and `list-del`.
//!
//! Steps on a folder of packages and the command line's staged changes of them:
//! - `file NAME`, `staged NAME`: puts the input as the file of a package, or of its staged changes.
//! - `read NAME`, `read-staged NAME`: the bytes of that file.
//! - `fail DEVICE NUMBER ..`: the calls of these numbers fail in the next `uci`. Devices are
//!   `files`, `staged`, `input`, `output` and `told`.
//! - `uci WORD ..`: a run of `uci` with this input: what it prints, what it tells behind `told: `,
//!   and a status that is not 0. The folder is opened anew for each.
//!
//! A word in single quotes may be empty or have spaces. What is refused is told as `error`, its
//! number and its text.
#![tactic(auto)]

mod bench;
mod changes;
mod folder;
mod packages;
mod show;
mod texts;
mod tool;

use bench::Bench;
use std::process::ExitCode;

fn main(rt: HostRuntime) -> anyhow::Result<ExitCode> {
    case_files::play_files::<Bench>(&rt)
}
