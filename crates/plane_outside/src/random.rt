ghost use Rattle.std.specs.Prelude.{◌≤◌, ℕ, Option};
ghost use Rattle.plane_outside.specs.Given.{Advances};

/// A source of random words, which never fails.
pub trait Random {
    /// What the k-th call from now gives, for each k from 0, where the source tells it.
    ghost words: { Self → Option (ℕ → ℕ) };

    /// A count of faults that never falls, and stands still at 2^64 - 1.
    ghost faults: { Self → ℕ };

    /// The next word of 64 bits.
    fn word(&mut self) -> u64
        ensures advances { Advances (words self.old) (words self.new) result }
        ensures later { faults self.old ≤ faults self.new };
}
