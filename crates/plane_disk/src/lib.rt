//! Disks of several files: what they tell, what their calls may leave after a crash, and a disk in
//! memory.
//!
//! Between two syncs a crash may leave any bytes where was written, and past an old end; after a
//! sync that succeeds it leaves what a read gives. A disk tells its files and its images only where
//! it can: one in memory does, a folder of a real machine does not.
#![tactic(auto)]

mod call;
mod change;
mod disk;
mod image;
mod mem_disk;
mod mem_file;
mod names;

pub use call::DiskCall;
pub use disk::Disk;
pub use mem_disk::MemDisk;
pub use mem_file::{MemFile, file_names};
pub use names::{are_disk_names, is_package_name};
