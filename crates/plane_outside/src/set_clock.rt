ghost use Rattle.std.specs.Prelude.{◌≡◌, ◌≤◌, ◌+◌, ◌↔◌, ℕ, IsTrue, Some};
ghost use Rattle.plane_outside.specs.Given.{Advances, nth_or_last, NeverFalls};

use crate::clock::Clock;
use crate::given::Given;
use std::marker::Model;

/// A clock that gives set moments in order, then the last one again, and 0 where there is none.
#[derive(Drop)]
pub struct SetClock {
    given: Given,
    last: u64,
}

impl Model for SetClock {
    ghost use Rattle.std.specs.Prelude.{ℕ, ◌≤◌, ◌+◌};
    ghost use Rattle.plane_outside.specs.Given.{nth_or_last};
    ghost use Rattle.plane_outside.specs.SetClock.{ClockInMemory};

    ghost Value = { ClockInMemory };

    ghost view = { λ clock. record { moments = clock.given; last = clock.last } };

    ghost invariant = { λ clock. (clock.last ≤ nth_or_last clock.given 0)
        × ((k : ℕ) → nth_or_last clock.given k ≤ nth_or_last clock.given (k + 1)) };
}

/// Whether no moment is less than the one before it.
pub fn never_falls(moments: &[u64]) -> bool
    ensures { IsTrue result ↔ NeverFalls moments.now }
{
    for i in 1..moments.len() {
        if moments[i] < moments[i - 1] {
            return false;
        }
    }
    true
}

impl SetClock {
    /// A clock that gives these moments, which never fall.
    pub fn new(moments: Vec<u64>) -> SetClock
        requires { NeverFalls moments.items }
        ensures moments { result.moments ≡ moments.items }
        ensures last { result.last ≡ 0 }
    {
        SetClock {
            given: Given::new(moments),
            last: 0,
        }
    }
}

impl Clock for SetClock {
    ghost moments = { λ clock. Some (nth_or_last clock.moments) };

    ghost last = { λ clock. clock.last };

    ghost faults = { λ clock. 0 };

    fn now(&mut self) -> u64 {
        let moment = self.given.next();
        self.last = moment;
        moment
    }
}
