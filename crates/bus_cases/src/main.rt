//! `bus_cases`: plays cases of a message bus, its clients and its access list.
//!
//! A frame that is sent is a line: `to CLIENT`, its kind, its sequence, and each field that it has
//! as `NAME=VALUE`. A call that is handed out to a local object is `call of CLIENT SEQ: OBJECT
//! METHOD ARGUMENTS`. A refusal is `error ..`. Steps:
//!
//! - `list JSON`, or `list` with the text as its input: a new bus with this access list. Gives
//!   `ok`, or why it is none.
//! - `client KEY open USER GROUP`, `client KEY bytes HEX`, `client KEY close`: a client with a key
//!   of its own; what is sent is told as bytes, in a line `send KEY HEX`. Gives `ok` behind it, or
//!   why it is refused, or the fault of its bytes.
//! - `connect USER GROUP`: a client without a key. Gives `client NUMBER`, and what is sent.
//! - `disconnect NUMBER`: the client leaves. Gives what is sent.
//! - `NUMBER KIND SEQ NAME=VALUE ..`: a message of the client of this number, in which the value
//!   `<` is the input. Gives what is sent.
//! - `reply CALLER SEQ OBJECT STATUS`, and then `JSON` or nothing: a local object answers a call
//!   that was handed out. The JSON text `<` is the input. Gives what is sent, or `no such call`.
//! - `lines`: plays each line of the input, and gives what each gives.
//! - `short`: does so too, but of a frame gives only to whom it goes, its kind and its status.
//! - `fits PATTERN TEXT`: whether the text fits a pattern of an access list, as `yes` or `no`.
//! - `may call USER GROUP OBJECT METHOD`, `may publish USER GROUP PATH`, and so `subscribe`, `send`
//!   and `listen`: whether the access list lets the user of the group do so, as `yes` or `no`.
#![tactic(auto)]

mod access;
mod bench;
mod clients;
mod messages;
mod told;

use bench::Bench;
use std::process::ExitCode;

fn main(rt: HostRuntime) -> anyhow::Result<ExitCode> {
    case_files::play_files::<Bench>(&rt)
}
