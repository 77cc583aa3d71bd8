//! Network files from before OpenWrt 21.02, rewritten as later releases write them.
#![tactic(auto)]

mod laws;
mod names;
mod options;
mod rewriting;
mod rules;

pub use laws::{rewritten_once, stays_valid};
pub use rewriting::modern;
