//! How far a settling of the kernel came: the words for its calls and their lines, and why it
//! stopped.
#![tactic(auto)]

mod settle_error;

pub use settle_error::SettleError;
