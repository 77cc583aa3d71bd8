//! The objects of a kernel that are held and wanted on devices, each at its key: what is due
//! between them, and in which order.
#![tactic(auto)]

mod bits;
mod changes;
mod deciders;
mod due;
mod forgetting;
mod form;
mod growth;
mod judging;
mod key;
mod laws;
mod line;
mod links;
mod marking;
mod objects;
mod order;
mod slot;
mod slots;
mod turn;
mod walks;

pub use laws::first_calls_are_found;
pub use objects::DeviceObjects;
pub use slot::Wish;
