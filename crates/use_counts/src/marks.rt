ghost use Rattle.std.specs.Prelude.{◌≡◌, ◌≢◌, ◌<◌, ◌≤◌, ◌+◌, ◌*◌, ◌^◌, ℕ, IfOk, IfSome, IfNone};
ghost use Rattle.std.specs.Prelude.{length, if◌then◌else◌};
ghost use Rattle.use_counts.specs.Marked.{mark};

use std::alloc::{AllocError, Global};
use std::marker::Model;

/// A set of numbers, a bit each. No word outside `low..high` has a bit.
#[derive(Drop)]
pub struct Marks {
    words: Vec<u64>,
    low: usize,
    high: usize,
}

impl Model for Marks {
    ghost use Rattle.std.specs.Prelude.{ℕ, List};

    ghost Value = { List ℕ };

    ghost use Rattle.use_counts.specs.MarksInside.{IsNarrow};

    ghost view = { λ m. m.words.items };

    ghost invariant = { λ m. IsNarrow m.words.items m.low m.high };
}

impl Marks {
    /// An empty set of numbers below `count`.
    pub fn new(alloc: Global, count: usize) -> Result<Marks, AllocError>
        requires { count + 64 < 2 ^ 64 }
        ensures room { IfOk result (λ m. count ≤ 64 * length m) }
        ensures none { IfOk result (λ m. (n : ℕ) → mark m n ≡ 0) }
    {
        let mut words = Vec::new(alloc);
        words.resize(count / 64 + 1, 0)?;
        Ok(Marks {
            words,
            low: 0,
            high: 0,
        })
    }

    fn insert(&mut self, number: usize)
        requires { number < 64 * length self.old }
        ensures here { mark self.new number ≡ 1 }
        ensures others { (n : ℕ) → n ≢ number → mark self.new n ≡ mark self.old n }
        ensures size { length self.new ≡ length self.old }
    {
        let word = number / 64;
        self.words[word] |= 1 << (number % 64);
        if self.low < self.high {
            self.low = self.low.min(word);
            self.high = self.high.max(word + 1);
        } else {
            self.low = word;
            self.high = word + 1;
        }
    }

    fn remove(&mut self, number: usize)
        requires { number < 64 * length self.old }
        ensures here { mark self.new number ≡ 0 }
        ensures others { (n : ℕ) → n ≢ number → mark self.new n ≡ mark self.old n }
        ensures size { length self.new ≡ length self.old }
    {
        self.words[number / 64] &= !(1 << (number % 64));
    }

    /// Puts the number in or takes it out.
    pub fn put(&mut self, number: usize, is_in: bool)
        requires { number < 64 * length self.old }
        ensures here { mark self.new number ≡ (if is_in then 1 else 0) }
        ensures others { (n : ℕ) → n ≢ number → mark self.new n ≡ mark self.old n }
        ensures size { length self.new ≡ length self.old }
    {
        if is_in {
            self.insert(number);
        } else {
            self.remove(number);
        }
    }

    /// The least number of the set.
    pub fn first(&mut self) -> Option<usize>
        ensures same { self.new ≡ self.old }
        ensures found { IfSome result (λ n. mark self.old n ≡ 1) }
        ensures least { IfSome result (λ n. (m : ℕ) → m < n → mark self.old m ≡ 0) }
        ensures none { IfNone result ((m : ℕ) → mark self.old m ≡ 0) }
    {
        while self.low < self.high {
            let word = self.words[self.low];
            if word != 0 {
                return Some(self.low * 64 + word.trailing_zeros() as usize);
            }
            self.low += 1;
        }
        None
    }
}
