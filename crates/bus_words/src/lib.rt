//! Attributes and messages of the bus in words, as programs of cases read and print them.
#![tactic(auto)]

mod attributes;
mod message;
mod told;

pub use attributes::{attributes_of, put_attributes, put_json};
pub use message::message_of;
pub use told::{KINDS, put_frame};
