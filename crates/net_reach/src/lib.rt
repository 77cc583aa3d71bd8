//! What reaches what, by name: interfaces at names, names above names, routes of interfaces, places
//! of devices; and which interfaces something that happens to a name touches.
#![tactic(auto)]

mod above;
mod changes;
mod groups;
mod interfaces;
mod l3_devices;
mod laws;
mod lookups;
mod place_set;
mod reach;
mod routes;
mod walk;

pub use laws::{answers_tell_l3_devices, devices_come_and_go, reach_stays, steps_that_reach_alike};
pub use place_set::PlaceSet;
pub use reach::{Reach, Visit};
