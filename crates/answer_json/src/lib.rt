//! The answers of handlers of protocols and radios, read from JSON (the keys of netifd's
//! `notify_proto`).
#![tactic(auto)]

mod answer_json;
mod ports_json;

pub use answer_json::read_answer;
pub use ports_json::read_ports;
