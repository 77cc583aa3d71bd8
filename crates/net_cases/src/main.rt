//! `net_cases FILE..`: plays cases of the plane of interfaces over a kernel in memory.
//!
//! Steps of a case:
//! - `file NAME`, with the text of a `network` or `wireless` file: keeps it under this name. It
//!   gives nothing.
//! - `failing calls N ..` and `failing events N ..`: the kernel's calls, or its device events, of
//!   these numbers fail.
//! - `play`, with an event a line: a new plane takes them over a new kernel, one after the other,
//!   and settles behind each. Given are for each event the lines of its calls, those of its
//!   notices, and `ok` or its error.
//! - `wherever calls N` and `wherever events N`, with events: plays them once without failures, and
//!   then with the call, or the event, of each number up to N failing once and what failed done
//!   again. Given is how many of these ends hold the same objects.
//!
//! Events, and what they give beside that:
//! - `load NETWORK [WIRELESS]`: the files of these names.
//! - `dev add NAME up|down`, `dev del NAME`, `carrier NAME up|down`: what happens to a device.
//! - `up INTERFACE`, `down INTERFACE`: what the operator wants.
//! - `answer INTERFACE NUMBER ADDRESS ..`: a handler's answer that the interface is up.
//! - `radio RADIO NUMBER PORT ..`: a handler's answer of the ports of a radio.
//! - `settle`: nothing else.
//! - `show interface|device|radio NAME`: the status, as JSON, or its error. Nothing happens and
//!   nothing settles.
//! - `graph NAME ..`: of each name whether it is available, whether it has link, and how many use
//!   it, by the graph that the plane lends.
//! - `due`: how many objects are in one of what is held and what is wanted alone.
#![tactic(auto)]

mod bench;
mod event;
mod history;
mod shown;
mod sweep;

use bench::Bench;
use std::process::ExitCode;

fn main(rt: HostRuntime) -> anyhow::Result<ExitCode> {
    case_files::play_files::<Bench>(&rt)
}
