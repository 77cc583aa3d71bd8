//! The message bus as definitions: what it knows, what each event makes of that and sends, with its
//! rows, and the laws on statuses and places.
#![tactic(auto)]

mod laws;
mod place_laws;
mod rows;

pub use laws::{
    answered_once, answered_or_open, at_most_one_status, over_at_once, sent_to_its_caller,
};
pub use place_laws::places_change_nothing;
pub use rows::{Client, LocalCall, Object, Registration, Subscription};
