//! A set of numbers, a bit each, which is looked through by words.
ghost use Rattle.std.specs.Prelude.{◌≡◌, ◌<◌, ◌≤◌, ◌*◌, ◌^◌, ℕ, [], length, IfSome, IfNone, OnOk};
ghost use Rattle.std.specs.Prelude.{true, false};
ghost use Rattle.graph_objects.specs.Bits.{IsPut, IsFirstBetween, NoneBetween, NoneFrom, bit};

use plane_io::Memory;
use std::alloc::Global;
use std::marker::Model;

/// A set of numbers.
#[derive(Drop)]
pub(crate) struct Bits {
    words: Vec<u64>,
}

impl Model for Bits {
    ghost use Rattle.std.specs.Prelude.{◌<◌, ◌*◌, ◌^◌, ℕ, List, length};

    ghost Value = { List ℕ };

    ghost view = { λ bits. bits.words.items };

    ghost invariant = { λ bits. 64 * length bits.words.items < 2 ^ 64 };
}

impl Bits {
    /// An empty set, without room.
    pub(crate) fn new(alloc: Global) -> Bits
        ensures { result ≡ [] }
    {
        Bits {
            words: Vec::new(alloc),
        }
    }

    /// Makes room for a number, where there is room for all below it.
    pub(crate) fn make_room(&mut self, number: usize) -> Result<(), Memory>
        requires next { number ≤ 64 * length self.old }
        requires small { number < 2 ^ 63 }
        ensures room { OnOk result (number < 64 * length self.new) }
        ensures grown { length self.old ≤ length self.new }
        ensures same { (n : ℕ) → bit self.new n ≡ bit self.old n }
    {
        if number / 64 == self.words.len() {
            self.words.push(0)?;
        }
        Ok(())
    }

    fn insert(&mut self, number: usize)
        requires { number < 64 * length self.old }
        ensures { IsPut self.old self.new number true }
    {
        self.words[number / 64] |= 1 << (number % 64);
    }

    fn remove(&mut self, number: usize)
        requires { number < 64 * length self.old }
        ensures { IsPut self.old self.new number false }
    {
        self.words[number / 64] &= !(1 << (number % 64));
    }

    /// Puts a number in or takes it out.
    pub(crate) fn put(&mut self, number: usize, is_in: bool)
        requires { number < 64 * length self.old }
        ensures { IsPut self.old self.new number is_in }
    {
        if is_in {
            self.insert(number);
        } else {
            self.remove(number);
        }
    }

    /// The least number in a word from this one on.
    fn first_from_word(&self, start: usize) -> Option<usize>
        ensures from { IfSome result (λ n. 64 * start ≤ n) }
        ensures least { IfSome result (NoneBetween self.now (64 * start)) }
        ensures none { IfNone result (NoneFrom self.now (64 * start)) }
    {
        for index in start..self.words.len() {
            let word = self.words[index];
            if word != 0 {
                return Some(index * 64 + word.trailing_zeros() as usize);
            }
        }
        None
    }

    /// The least number from this one on.
    fn first_from(&self, start: usize) -> Option<usize>
        ensures from { IfSome result (λ n. start ≤ n) }
        ensures least { IfSome result (NoneBetween self.now start) }
        ensures none { IfNone result (NoneFrom self.now start) }
    {
        let index = start / 64;
        if index >= self.words.len() {
            return None;
        }
        let rest = self.words[index] >> (start % 64);
        if rest != 0 {
            return Some(start + rest.trailing_zeros() as usize);
        }
        self.first_from_word(index + 1)
    }
    /// The least number from the one up to the other.
    pub(crate) fn first_between(&self, start: usize, end: usize) -> Option<usize>
        ensures some { IfSome result (IsFirstBetween self.now start end) }
        ensures none { IfNone result (NoneBetween self.now start end) }
    {
        match self.first_from(start) {
            Some(number) => { if number < end { Some(number) } else { None } }
            None => None,
        }
    }
}
