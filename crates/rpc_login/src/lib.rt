//! Logins of the message bus, as OpenWrt's rpcd has them: groups of grants, read from JSON, and
//! stored passwords.
#![tactic(auto)]

mod group;
mod group_error;
mod laws;
mod password;
mod read;

pub use group::{Group, Groups, Perm};
pub use group_error::GroupError;
pub use laws::{first_bad_group, one_digest, one_salt, stored_text_fits};
pub use password::{MOST_SALT, hash_password, password_fits};
