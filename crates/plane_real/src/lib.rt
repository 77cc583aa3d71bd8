//! The real devices: thin adapters over std, which the program and its tests alone name.
//!
//! A real device does not tell what it holds, so no clause here is about bytes. It is proved that
//! each failure is counted, that moments do not fall, and which names files and clients have.
#![tactic(auto)]

mod dir_disk;
#[cfg(test)]
mod folder_tests;
#[cfg(test)]
mod outside_tests;
mod seed;
mod std_sink;
mod std_source;
mod system_clock;
#[cfg(test)]
mod tests;
mod unix_hub;

pub use dir_disk::DirDisk;
pub use seed::random_seed;
pub use std_sink::StdSink;
pub use std_source::StdSource;
pub use system_clock::SystemClock;
pub use unix_hub::UnixHub;
