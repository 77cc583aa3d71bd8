ghost use Rattle.std.specs.Prelude.{◌≡◌, None};

use plane_outside::Clock;
use std::time::{Clock as Time, SystemTime, UNIX_EPOCH};

/// The clock of the system, in seconds since 1970. Where the system sets it back, it stands still.
#[derive(Drop)]
pub struct SystemClock<'a, R> {
    time: &'a R,
    last: u64,
    faults: u64,
}

impl<'a, R> SystemClock<'a, R> {
    /// The clock of this runtime, without faults so far.
    pub fn new(time: &'a R) -> SystemClock<'a, R>
        ensures faults { result.faults ≡ 0 }
        ensures last { result.last ≡ 0 }
    {
        SystemClock {
            time,
            last: 0,
            faults: 0,
        }
    }
}

/// The seconds since 1970, where the system tells them.
fn seconds<R: Time>(time: &R) -> Option<u64> {
    let now = SystemTime::now(time).ok()?;
    let passed = now.duration_since(UNIX_EPOCH).ok()?;
    Some(passed.as_secs())
}

impl<'a, R: Time> Clock for SystemClock<'a, R> {
    ghost moments = { λ _. None };

    ghost last = { λ clock. clock.last };

    ghost faults = { λ clock. clock.faults };

    fn now(&mut self) -> u64 {
        match seconds(self.time) {
            Some(moment) => {
                if moment > self.last {
                    self.last = moment;
                }
            }
            None => self.faults = self.faults.saturating_add(1),
        }
        self.last
    }
}
