//! A network made by number: it is brought up, loses its device, gets it again, and is loaded with
//! fewer interfaces. The calls of the kernel are counted step by step.
#![tactic(auto)]

mod counted;
mod gen_error;
mod held;
mod number_line;
mod packages;
mod run;
mod steps;

pub use gen_error::GenError;
pub use run::generate;
