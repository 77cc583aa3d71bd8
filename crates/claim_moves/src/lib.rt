//! The claims of names in a graph of devices follow what interfaces become.
#![tactic(auto)]

mod forgetting;
mod moving;

pub use forgetting::forget_claims;
pub use moving::move_claims;
