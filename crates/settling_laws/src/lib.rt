//! Laws on a graph with gifts above it beside the inputs of a network: it wants what the inputs
//! want, it is ready to be settled, and events, loads and settlings lead it on.
#![tactic(auto)]

mod laws;

pub use laws::{
    claims_of_known_names_are_all, counted_settling_states_are_of_inputs, devices_lead_graphs_on,
    further_names_change_nothing, gifts_stay_quiet, graphs_of_settling_states_are_of_inputs,
    loads_lead_graphs_on, settling_states_of_histories_are_ready,
    settling_states_want_what_inputs_want, settlings_lead_settling_states_on,
};
