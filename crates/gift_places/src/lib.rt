//! Places for addresses and routes that interfaces may give, taken before they give them; what is
//! held and nobody gives; and whether an interface gives few.
#![tactic(auto)]

mod expecting;
mod few;
mod held;
mod laws;
mod objects;

pub use expecting::expect_given;
pub use few::{MOST_GIVEN, gives_few};
pub use held::held_alone;
pub use laws::places_change_nothing;
