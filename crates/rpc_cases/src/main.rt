//! `rpc_cases`: plays cases of sessions, of the object `session` and of the object `uci`.
//!
//! A session is named by its number: its id is 2^64 times that number, and a random word that is
//! 0xab unless `create` tells another. A refusal is `error NUMBER TEXT`. Steps:
//!
//! - `SECOND WHO session METHOD ARGUMENTS`: a call of the object `session`. WHO is the number of a
//!   session, which becomes the argument `ubus_rpc_session`, or `-`. ARGUMENTS is JSON; without it,
//!   it is the input, and `{}` where that is empty. Gives the answer as JSON.
//! - `SECOND WHO uci METHOD ARGUMENTS`: a call of the object `uci`. Gives the answer as JSON, and
//!   `reload` where packages are to be read anew; or `status N`, `denied SCOPE OBJECT FUNCTION` or
//!   `disk failed`.
//! - `order SECOND WHO session METHOD ARGUMENTS`: gives the answer's values in the order in which
//!   they stand.
//! - `create TIMEOUT SECOND WORD`: a new session. Gives `session NUMBER.WORD`.
//! - `grant ID SCOPE OBJECT FUNCTION`, `revoke ..`, `used ID SECOND`, `destroy ID`: gives `ok`. An
//!   ID is NUMBER or NUMBER.WORD.
//! - `allowed ID SCOPE OBJECT FUNCTION SECOND`: gives `ok`.
//! - `expired SECOND`: gives the first session that has expired as `create` does, or `none`.
//! - `permits SCOPE OBJECT FUNCTION SCOPE OBJECT FUNCTION`: whether the first grant permits what
//!   the second asks for, `yes` or `no`.
//! - `packages`: the packages of the disk. In the input a line `=== NAME` stands in front of the
//!   text of each, in byte order.
//! - `staged NAME`: what the command line has staged of a package, which is the input.
//! - `disks`, `disks fuse N`: makes the two disks of these packages. With a fuse the disk of the
//!   packages does N calls and then fails.
//! - `open SECOND`: opens the disks. Gives nothing, or `not opened`.
//! - `keep`: closes the store, and keeps what the disk of the packages has.
//! - `crash`: closes the store, and finds the disks that a crash may leave among these: each gate
//!   is closed, open or torn; the snapshot is empty, as it was kept, torn or another one; the
//!   package `network` is as at first, as it was kept, empty or torn. Gives how many there are with
//!   each two gates, as `GG N`, where a gate is `0`, `O` or `*`.
//! - `left SECOND`: opens each of these disks at this second and plays the lines of the input on
//!   it. Gives what they give, the same only once, behind `N disks:`.
//! - `lines`: plays each line of the input, and gives what each gives.
#![tactic(auto)]

mod bench;
mod calls;
mod crashes;
mod desk;
mod disks;
mod grants;

use bench::Bench;
use std::process::ExitCode;

fn main(rt: HostRuntime) -> anyhow::Result<ExitCode> {
    case_files::play_files::<Bench>(&rt)
}
