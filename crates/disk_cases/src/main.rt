//! `disk_cases`: plays cases of disks in memory, snapshots and stores on them, and of the other
//! devices in memory, from files, and tells which differ.
//!
//! Steps on a disk; FILE is the number of a file:
//! - `disk file NAME`: puts the input as a file of the next disk.
//! - `disk start`, `disk start passes N`, `disk start fails N ..`: begins it; all calls behind so
//!   many fail, or the calls of these numbers.
//! - `disk write FILE AT`, `disk cut FILE SIZE`, `disk sync`: what the call answers, as `ok` or
//!   `failed`. The input is written.
//! - `disk read FILE AT COUNT`: the bytes that it gives and a newline. `disk size FILE`, `disk name
//!   FILE`, `disk count`, `disk refused`.
//! - `disk image CONTENT ..`: whether a crash now may leave files of these contents. `disk crash
//!   CONTENT ..`: it leaves them.
//! - `disk names NAME ..`: whether these are the names of a disk. `disk package`: whether the input
//!   is the name of a package.
//! - `disk may-be FILE`: the lines of the input are what `snap images` tries as that file; `x `
//!   stands before hexadecimal digits.
//!
//! Steps on a snapshot of it, which a step on the disk closes, but for `count`, `name`, `size`,
//! `image` and `may-be`:
//! - `snap open MOMENT`, `snap confirm`, `snap rollback`: `ok`, or what it refuses. `snap tick
//!   MOMENT`: whether it undid an apply.
//! - `snap new FILE`: the input is to be written as that file. `snap apply DEADLINE HOLDER`, `snap
//!   commit`: writes what is new.
//! - `snap file FILE`: its bytes and a newline. `snap pending`: what waits.
//! - `snap images MOMENT`: each image of the disk among what its files may be is opened at that
//!   moment: a line for each state that is seen, the packages by their bytes, and what waits.
//!
//! Steps on a store over two disks, of which the first one has the files of `disk file`:
//! - `store staged NAME`: puts the input as a file of the second disk. `store staged-passes N`: its
//!   calls behind so many fail.
//! - `store open MOMENT`, `store commit HOLDER PACKAGE`, `store replace HOLDER PACKAGE`, `store
//!   apply HOLDER DEADLINE` or `never`, `store confirm HOLDER`, `store rollback HOLDER`, `store
//!   tick MOMENT`, `store stage HOLDER LINE`, `store revert HOLDER PATH`: `ok`, or what it refuses.
//!   LINE is that of a delta file, and a package is replaced by itself.
//! - `store changes HOLDER PACKAGE`, `store view HOLDER PACKAGE`, `store committed PACKAGE`, `store
//!   pending`, `store packages`.
//! - `store read NAME`, `store read-staged NAME`: the bytes of a file of the disks, or nothing
//!   where it fails. Both close the store.
//!
//! Steps on other devices, of which calls with the numbers behind `start` fail:
//! - `hub accept CLIENT USER GROUP`, `hub bytes CLIENT` with the input, `hub close CLIENT`, `hub
//!   idle`: an event of the next hub. `hub whole`: whether each has 1 to 65536 bytes, where it has
//!   any. `hub start`, `hub start N ..`: begins it. `hub next`, `hub send CLIENT` with the input,
//!   `hub sent`, `hub refused`.
//! - `source start`, `source start N ..`: a source of the input. `source read COUNT`: what a read
//!   gives. `source all LIMIT`: all of it.
//! - `sink start`, `sink start N ..`, `sink room SIZE`: a sink. `sink write`: writes the input.
//!   `sink bytes`, `sink refused`.
//! - `clock start MOMENT ..`: a clock of these moments, or that they fall. `clock now`: its moment.
//! - `random start WORD ..`: a list of words. `random seed`: the words of a seed of zeros. `random
//!   word`: the next one, in hexadecimal digits.
//! - `text order ONE OTHER`: how two texts are ordered. `text of ERROR`: what is told of an error
//!   of the devices.
//!
//! A word in single quotes may be empty or have spaces. What is refused is told as `error`, its
//! number and its text.
#![tactic(auto)]

mod bench;
mod devices;
mod disks;
mod files;
mod hubs;
mod images;
mod open_snap;
mod open_store;
mod show;
mod snaps;
mod stores;

use bench::Bench;
use std::process::ExitCode;

fn main(rt: HostRuntime) -> anyhow::Result<ExitCode> {
    case_files::play_files::<Bench>(&rt)
}
