//! Laws of histories of the plane of interfaces, beside those of `net_plane`.
#![tactic(auto)]

mod laws;

pub use laws::no_call_that_is_left_names_what_stayed;
