ghost use Rattle.std.specs.Prelude.{◌≡◌, Some};
ghost use Rattle.plane_outside.specs.Given.{nth_or_last};

use crate::given::Given;
use crate::random::Random;
use std::marker::Model;

/// A source that gives the words of a list in order, then the last one again, and 0 where there is
/// none.
#[derive(Drop)]
pub struct ListRandom {
    given: Given,
}

impl Model for ListRandom {
    ghost use Rattle.std.specs.Prelude.{ℕ, List};

    ghost Value = { List ℕ };

    ghost view = { λ random. random.given };
}

impl ListRandom {
    /// A source that gives these words.
    pub fn new(words: Vec<u64>) -> ListRandom
        ensures { result ≡ words.items }
    {
        ListRandom {
            given: Given::new(words),
        }
    }
}

impl Random for ListRandom {
    ghost words = { λ random. Some (nth_or_last random) };

    ghost faults = { λ random. 0 };

    fn word(&mut self) -> u64 {
        self.given.next()
    }
}
