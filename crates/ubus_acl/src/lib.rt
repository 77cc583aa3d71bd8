//! Who may do what on OpenWrt's message bus: a list of records by user or group, read from JSON.
#![tactic(auto)]

mod access_error;
mod acl;
mod laws;
mod pattern;
mod read;
mod record;

pub use access_error::AclError;
pub use acl::Acl;
pub use laws::{first_bad_record, root_may_do_all};
pub use pattern::fits_front;
pub use record::{Access, Record};
