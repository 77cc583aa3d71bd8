ghost use Rattle.std.specs.Prelude.{◌≡◌, ◌≤◌, ℕ, Option};
ghost use Rattle.plane_outside.specs.Given.{Advances};

/// A clock. Its moments are seconds and never fall, and it never fails.
pub trait Clock {
    /// What the k-th call from now gives, for each k from 0, where the clock tells it.
    ghost moments: { Self → Option (ℕ → ℕ) };

    /// The last moment that it gave, 0 before the first.
    ghost last: { Self → ℕ };

    /// A count of faults that never falls, and stands still at 2^64 - 1.
    ghost faults: { Self → ℕ };

    /// The moment, in seconds.
    fn now(&mut self) -> u64
        ensures advances { Advances (moments self.old) (moments self.new) result }
        ensures never_falls { last self.old ≤ result }
        ensures last { last self.new ≡ result }
        ensures later { faults self.old ≤ faults self.new };
}
