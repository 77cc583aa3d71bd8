//! `rows_cases`: plays files of cases on the files of a network, and tells what differs. Each case
//! has files of its own, which are empty at first.
//!
//! Steps that take a file:
//! - `network`, `wireless`: the input is this package from here on.
//!
//! Steps that show what the files say:
//! - `devices`, `names`, `vlans`: the rows of `device` sections, of names of devices, and of
//!   `bridge-vlan` sections, a line each; `rows`: all three.
//! - `interfaces`, `routes`, `radios`: the rows of these sections.
//! - `counts`: how long the lists of the whole configuration are, or the limit that one of them
//!   passes.
//! - `modern`: the package `network` is rewritten as one of OpenWrt 21.02, and shown with the names
//!   of its sections and how many were made.
//! - `ask interface NUMBER ROW DEVICE`, `ask radio NUMBER ROW`, `ask drop NUMBER`: the line that
//!   tells of this request.
//!
//! Steps that show what a text is read as:
//! - `line TEXT`: the lines of a script.
//! - `answer JSON`, `ports JSON`: the answer of a handler of an interface, or of a radio.
#![tactic(auto)]

mod answers;
mod bench;
mod devices;
mod interfaces;
mod lines;
mod put;
mod radios;
mod requests;
mod vlans;

use bench::Bench;
use std::process::ExitCode;

fn main(rt: HostRuntime) -> anyhow::Result<ExitCode> {
    case_files::play_files::<Bench>(&rt)
}
