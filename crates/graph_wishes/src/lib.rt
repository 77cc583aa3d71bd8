//! What a graph of devices may want: which objects, and which two names decide each.
#![tactic(auto)]

mod laws;

pub use laws::{mays_are_apart, wants_are_used_mays};
