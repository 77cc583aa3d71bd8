//! A graph of network devices by their names: what it knows, answers and wants, and what its calls
//! make of it, as definitions with their laws.
#![tactic(auto)]

mod ids;
mod laws;

pub use ids::{DevId, RadioPort};
pub use laws::{
    answers_are_those_of_the_rules, loads_keep_devices_and_claims, wishes_are_those_of_the_rules,
};
