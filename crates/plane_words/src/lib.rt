//! The definitions that every crate of the plane cites, and the laws about them.
//!
//! The crate has no code: each function here is a law, whose contract is the statement and whose
//! body is empty.
#![tactic(auto)]

mod causes;
mod in_order;
mod numeral;
mod pattern;

pub use causes::{no_rise_in_a_part, no_rise_is_no_rise, rises_add_up};
pub use in_order::{one_list_in_order, ordered_is_in_order};
pub use numeral::{decimal_reads_back, hex_reads_back, zeros_in_front};
pub use pattern::{fits_is_a_test, front_patterns, plain_patterns};
