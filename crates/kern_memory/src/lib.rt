//! A kernel in memory: its objects and devices in hash tables, and where it is asked for, the lists
//! of what it did.
#![tactic(auto)]

mod devices;
mod log;
mod mem_kernel;
mod objects;
mod tables;

pub use mem_kernel::MemKernel;
