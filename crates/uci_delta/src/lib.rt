//! Staged changes of UCI packages, as OpenWrt's `uci` keeps them: what each makes of a package, and
//! their text.
#![tactic(auto)]

mod applying;
mod batch;
mod delta;
mod delta_error;
mod head;
mod laws;
mod line;
mod names;
mod options;
mod place;
mod places;
mod print;
mod quoting;
mod reading;
mod sections;
mod word;

pub use applying::apply;
pub use batch::apply_all;
pub use delta::{Change, Delta};
pub use delta_error::DeltaError;
pub use laws::{
    no_refusal_is_memory, one_list_of_deltas, printed_deltas_read_back, read_deltas_are_lines,
    taken_deltas_are_lines, valid_stays_valid,
};
pub use print::{print_change, print_delta};
pub use reading::read_deltas;
