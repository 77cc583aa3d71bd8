//! What calls of the object `uci` of the message bus ask for, which grants they need, what they
//! tell of packages and what they stage, as OpenWrt's rpcd has it but for a few rules of our own,
//! which `specs/` names. All of it is worked out of the arguments and of what a holder sees of a
//! package.
#![tactic(auto)]

mod arguments;
mod by_name;
mod caller;
mod changes;
mod edits;
mod grants;
mod method;
mod plan;
mod rpc_error;
mod told;

pub use arguments::{apply_deadline, config_in, edit_fits, question_fits};
pub use caller::Caller;
pub use changes::{changes_told, package_changes};
pub use edits::planned;
pub use grants::{first_missing, may_read, needed};
pub use method::{Edit, Method, Question};
pub use plan::Plan;
pub use rpc_error::RpcError;
pub use told::{configs_told, get_told};
