//! The addresses and routes that interfaces give, counted over what interfaces are, as laws.
#![tactic(auto)]

mod laws;

pub use laws::{gifts_are_counted, gifts_move_with_lists, others_than_givers_stay};
