//! Requests of touched interfaces, lost and opened place by place of their rows, as laws.
#![tactic(auto)]

mod laws;

pub use laws::{
    lost_numbers_are_in_order, lost_requests_are_those_of_touched, places_in_order_rise,
    requests_are_lost_by_place, requests_are_opened_by_place,
};
