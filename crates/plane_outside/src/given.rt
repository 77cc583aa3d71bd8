ghost use Rattle.std.specs.Prelude.{◌≡◌, ◌≤◌, ◌+◌, ℕ, length};
ghost use Rattle.plane_outside.specs.Given.{nth_or_last};

use std::marker::Model;

/// Numbers that are given in order, then the last one again, and 0 where there is none. Contracts
/// see those that are left, of which the last one stays.
#[derive(Drop)]
pub struct Given {
    numbers: Vec<u64>,
    at: usize,
}

impl Model for Given {
    ghost use Rattle.std.specs.Prelude.{ℕ, List, drop, length, ◌≤◌};

    ghost Value = { List ℕ };

    ghost view = { λ given. drop given.at given.numbers.items };

    ghost invariant = { λ given. given.at ≤ length given.numbers.items };
}

impl Given {
    /// Gives these numbers.
    pub fn new(numbers: Vec<u64>) -> Given
        ensures { result ≡ numbers.items }
    {
        Given { numbers, at: 0 }
    }

    /// The next number.
    pub fn next(&mut self) -> u64
        ensures number { result ≡ nth_or_last self.old 0 }
        ensures others { (k : ℕ) → nth_or_last self.new k ≡ nth_or_last self.old (k + 1) }
    {
        let (_, left) = self.numbers.split_at(self.at);
        match left {
            [] => 0,
            [last] => *last,
            [number, ..] => {
                let number = *number;
                self.at += 1;
                number
            }
        }
    }
}
