//! The outside beside files and streams: a hub of clients, a clock and a source of random words,
//! each as a trait with devices in memory.
//!
//! A device tells what it has left only where it can: one in memory does, a socket does not. Every
//! device keeps a count of its faults, and a call fails only where that count rose.
#![tactic(auto)]

mod clock;
mod event;
mod given;
mod hub;
mod list_random;
mod mem_hub;
mod random;
mod seeded_random;
mod set_clock;

pub use clock::Clock;
pub use event::{HubError, HubEvent, Sent};
pub use hub::Hub;
pub use list_random::ListRandom;
pub use mem_hub::{MemHub, are_whole};
pub use random::Random;
pub use seeded_random::SeededRandom;
pub use set_clock::{SetClock, never_falls};
