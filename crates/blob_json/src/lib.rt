//! JSON as the attributes of OpenWrt's message bus, and attributes as JSON.
#![tactic(auto)]

mod from_json;
mod json_error;
mod laws;
mod to_json;

pub use from_json::blob_of_json;
pub use json_error::JsonError;
pub use laws::last_of_equal_names;
pub use to_json::json_of_blob;
