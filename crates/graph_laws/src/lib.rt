//! Laws on graphs beside a network: rows that were read can be loaded, bring few edges, and share
//! the used names; answers need no claims, wants are the network's without addresses and routes,
//! and links of the rows do not fall under a used name.
#![tactic(auto)]

mod laws;

pub use laws::{
    answers_need_no_claims, graphs_want_the_lower_part, links_of_rows_are_kept,
    loads_bring_few_edges, ports_of_radios_may_be_ports, rows_that_are_read_can_be_loaded,
    sound_graphs_have_few_edges, used_names_are_shared,
};
