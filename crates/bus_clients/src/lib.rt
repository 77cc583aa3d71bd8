//! The clients of a script: a message bus with the clients that the script opened, by its own
//! numbers, and the lines that tell what they are sent.
#![tactic(auto)]

mod client_error;
mod clients;
mod script_bus;
mod sends;

pub use client_error::ClientError;
pub use clients::{Fed, ScriptClient};
pub use script_bus::ScriptBus;
