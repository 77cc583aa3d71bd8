//! The message bus: clients come, send and leave, local objects answer; with the laws on statuses
//! over runs of its calls.
#![tactic(auto)]

mod broker;
mod broker_error;
mod laws;
mod plans;
mod replies;

pub use broker::{Broker, Joined, MOST_CLIENTS, Served};
pub use broker_error::BrokerError;
pub use laws::{
    answered_once, at_most_one_status, over_at_once, sent_as_defined, sent_to_its_caller,
};
