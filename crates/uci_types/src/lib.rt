//! Datatypes: which values an option may have, as expressions that are read from text, and rules
//! that tell which options of a package have another value (the datatypes of OpenWrt's `uci`
//! validation).
#![tactic(auto)]

mod address;
mod datatype;
mod fault;
mod judge;
mod number;
mod rule;

pub use datatype::{Datatype, Kind};
pub use fault::{Fault, check};
pub use judge::accepts;
pub use rule::Rule;
