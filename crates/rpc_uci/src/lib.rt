//! The object `uci` of the message bus, as OpenWrt's rpcd has it: packages are read, staged,
//! applied, confirmed and rolled back by sessions with grants for each package, and an apply that
//! waits is its holder's alone to confirm or to undo.
#![tactic(auto)]

mod asking;
mod ending;
mod laws;
mod refused;
mod reply;
mod seeing;
mod serving;
mod staging;

pub use laws::{one_answer, one_state};
pub use reply::Reply;
pub use serving::serve;
