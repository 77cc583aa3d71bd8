//! What may be wanted on the devices of a graph, as a table with what is held from before, and what
//! of it is wanted.
#![tactic(auto)]

mod bridges;
mod filling;
mod judging;
mod single;
mod wishes;

pub use filling::table;
pub use judging::{judge, judge_marked};
