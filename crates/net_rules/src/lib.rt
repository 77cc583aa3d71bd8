//! What a network wants of the kernel, as definitions over its rows, with their laws: which names
//! rows reach, which interfaces an event touches, and the claims of names, counted over interfaces.
#![tactic(auto)]

mod answer;
mod asked_laws;
mod claim_laws;
mod event;
mod inputs;
mod laws;
mod reach_laws;
mod refusal;
mod request;
mod state;

pub use answer::{Answer, AnswerRoute};
pub use asked_laws::{
    devices_touch_what_is_above, operator_states_and_answers_touch_one,
    requests_follow_touched_needs,
};
pub use claim_laws::{answers_touch_one, claims_are_counted, used_names_are_available};
pub use event::{Event, Notice};
pub use inputs::{Inputs, OpenInterface, OpenRadio, OperatorState};
pub use laws::{
    a_fresh_start_wants_the_same, answers_follow_the_rows, devices_follow_the_kernel,
    events_that_are_not_refused_may_come, every_history_is_orderly, footprint_is_not_touched,
    footprints_are_what_is_below, inputs_want_what_is_allowed, no_answer_changes_a_need,
    no_call_names_what_stayed, no_number_is_given_twice, no_other_answers_follow_the_rows,
    objects_are_wanted, requests_are_the_needs, same_footprint_is_not_touched,
    stale_answers_change_nothing, used_names_have_users, want_is_allowed,
    what_vlans_lead_to_is_tested,
};
pub use reach_laws::{devices_apart_change_nothing_else, known_names_are_reached};
pub use refusal::{MOST_DEVICES, MOST_IN_ANSWER, Refusal};
pub use request::{InterfaceRequest, RadioRequest, WifiRequest};
pub use state::InterfaceState;
