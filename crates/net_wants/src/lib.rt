//! What a network uses, computed as its definitions say, and words for what it wants.
#![tactic(auto)]

mod main_table;
mod users;
mod view;

pub use main_table::MAIN_TABLE;
pub use view::View;
