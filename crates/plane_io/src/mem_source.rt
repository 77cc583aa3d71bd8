ghost use Rattle.std.specs.Prelude.{◌≡◌, ◌≤◌, ◌<◌, ◌↔◌, [], length, min, take, drop, Some, Ok};
ghost use Rattle.std.specs.Prelude.{IsErr, OnOk, OnErr, IfOk, IfSome, Contains};
ghost use Rattle.plane_words.specs.Causes.{HasCause, next_count};
ghost use Rattle.plane_words.specs.Growth.{Gives};
ghost use Rattle.plane_io.specs.MemSource.{SourceInMemory};

use crate::{Failed, Source};
use std::marker::Model;

/// A source in memory. Its calls are numbered from 1 in the order in which they are made; those
/// whose numbers stand in its list fail, and then take nothing.
#[derive(Drop)]
pub struct MemSource {
    bytes: Vec<u8>,
    at: usize,
    failing: Vec<u64>,
    calls: u64,
    faults: u64,
}

impl Model for MemSource {
    ghost use Rattle.std.specs.Prelude.{drop, length, ◌≤◌};
    ghost use Rattle.plane_io.specs.MemSource.{SourceInMemory};

    ghost Value = { SourceInMemory };

    ghost view = { λ source. record {
      left = drop source.at source.bytes.items;
      failing = source.failing.items;
      calls = source.calls;
      faults = source.faults;
    } };

    ghost invariant = { λ source. source.at ≤ length source.bytes.items };
}

impl MemSource {
    /// A source that has these bytes, and whose calls with these numbers fail.
    pub fn new(bytes: Vec<u8>, failing: Vec<u64>) -> MemSource
        ensures { result
            ≡ record { left = bytes.items; failing = failing.items; calls = 0; faults = 0 } }
    {
        MemSource {
            bytes,
            at: 0,
            failing,
            calls: 0,
            faults: 0,
        }
    }
}

impl Source for MemSource {
    ghost left = { λ source. Some source.left };

    ghost faults = { λ source. source.faults };

    fn read(&mut self, into: &mut [u8]) -> Result<usize, Failed>
        requires { 0 < length into.old }
        ensures fits { IfOk result (λ count. count ≤ length into.new) }
        ensures gives { IfOk result (λ count.
            Gives (Some self.old.left) (Some self.new.left) (take count into.new)) }
        ensures end { result ≡ Ok 0 → IfSome (Some self.old.left) (λ bytes. bytes ≡ []) }
        ensures cause { HasCause self.old.faults self.new.faults result }

        // As much is read as fits, and a call fails exactly where its number is in the list.
        ensures whole { IfOk result (λ count.
            count ≡ min (length into.old) (length self.old.left)) }
        ensures number { self.new.calls ≡ next_count self.old.calls }
        ensures fails { IsErr result ↔ Contains self.old.failing self.new.calls }
        ensures list { self.new.failing ≡ self.old.failing }
        ensures ok { OnOk result (self.new.faults ≡ self.old.faults) }
        ensures err { OnErr result (self.new.left ≡ self.old.left) }
    {
        self.calls = self.calls.saturating_add(1);
        if self.failing.contains(&self.calls) {
            self.faults = self.faults.saturating_add(1);
            return Err(Failed);
        }
        let (_, left) = self.bytes.split_at(self.at);
        let count = into.len().min(left.len());
        let (front, _) = left.split_at(count);
        into[..count].copy_from_slice(front);
        self.at += count;
        Ok(count)
    }
}
