//! The store that the command line, web interfaces and agents share: packages as they are
//! committed, what each holder has staged over them, and an apply that waits for its holder's
//! confirm.
#![tactic(auto)]

mod applying;
mod batch;
mod committing;
mod laws;
mod opening;
mod staging;
mod store;
mod store_error;
mod viewing;
mod waiting;
mod writing;

pub use laws::staged_one_by_one;
pub use opening::have_same_packages;
pub use store::Store;
pub use store_error::StoreError;
