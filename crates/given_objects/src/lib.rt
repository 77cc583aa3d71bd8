//! The addresses and routes that are given, each with how often, and whether it is held: what is
//! due of them, and which comes first.
#![tactic(auto)]

mod first;
mod form;
mod gift;
mod given;
mod key;
mod laws;
mod line;
mod order;
mod places;

pub use gift::Gift;
pub use given::GivenObjects;
pub use laws::{
    first_gifts_are_first_calls, gifts_follow_givers, gifts_stay_gifts, givers_are_counted,
    notes_follow_calls, places_and_flags_move_nothing, places_stay,
};
