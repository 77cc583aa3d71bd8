//! The inputs of a network with room, changed in their place: devices, operator states, answers and
//! open asks move one by one and take no memory.
#![tactic(auto)]

mod copies;
mod devices;
mod known;
mod laws;

pub use known::KnownInputs;
pub use laws::{events_stand_once, names_of_rows_are_few, requests_are_found};
