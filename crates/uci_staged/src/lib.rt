//! Changes of UCI packages that holders have staged, and the disk on which the command line's own
//! are kept.
#![tactic(auto)]

mod change;
mod copy;
mod file;
mod opening;
mod staged;
mod staged_error;
mod staging;
mod under;

pub use change::StagedChange;
pub use copy::copy_delta;
pub use staged::Staged;
pub use staged_error::StagedError;
