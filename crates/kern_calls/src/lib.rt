//! The calls between two sets of kernel objects, as a list and in parts, with their laws.
#![tactic(auto)]

mod laws;
mod part_laws;

pub use laws::{
    calls_are_the_calls, calls_from_nothing_are_alike, calls_go_on, fronts_are_admitted,
    levels_ground_vlans, loses_link_with_taken_links, lower_calls_are_calls, nothing_is_due,
    two_calls_at_most, what_stays_is_untouched,
};
pub use part_laws::{
    calls_come_in_parts, parts_follow_calls, sets_are_those_of_their_items, takes_come_before_puts,
};
