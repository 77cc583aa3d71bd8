//! Laws on the places of touched interfaces: what happens to a device touches those that the walk
//! up from its name finds, an operator state one.
#![tactic(auto)]

mod laws;

pub use laws::{
    devices_touch_the_places_above, needed_requests_stay, operator_states_touch_one_place,
    untouched_states_stay,
};
