ghost use Rattle.std.specs.Prelude.{◌≡◌, ◌≤◌, ◌+◌, ◌⊎◌, ◌++◌, [], length, Some, OnOk, OnErr, IfOk};
ghost use Rattle.std.specs.Prelude.{Contains};
ghost use Rattle.plane_words.specs.Causes.{HasCause, Rose, next_count};
ghost use Rattle.plane_words.specs.Growth.{Grows, GrowsByFront};
ghost use Rattle.plane_io.specs.MemSink.{SinkInMemory};

use crate::{Failed, Memory, Sink};
use std::alloc::Global;
use std::marker::Model;

/// A sink in memory. Its calls are numbered from 1 in the order in which they are made. A call
/// fails where its number stands in the list of the sink, or where the sink cannot grow; then it
/// writes nothing.
#[derive(Drop)]
pub struct MemSink {
    bytes: Vec<u8>,
    failing: Vec<u64>,
    calls: u64,
    faults: u64,
    refused: u64,
}

impl Model for MemSink {
    ghost use Rattle.std.specs.Prelude.{vec_capacity};
    ghost use Rattle.plane_io.specs.MemSink.{SinkInMemory};

    ghost Value = { SinkInMemory };

    ghost view = { λ sink. record {
      bytes = sink.bytes.items;
      room = vec_capacity sink.bytes;
      failing = sink.failing.items;
      calls = sink.calls;
      faults = sink.faults;
      refused = sink.refused;
    } };
}

impl MemSink {
    /// An empty sink, whose calls with these numbers fail.
    pub fn new(alloc: Global, failing: Vec<u64>) -> MemSink
        ensures empty { result.bytes ≡ [] }
        ensures list { result.failing ≡ failing.items }
        ensures counts { (result.calls ≡ 0) × (result.faults ≡ 0) × (result.refused ≡ 0) }
    {
        MemSink {
            bytes: Vec::new(alloc),
            failing,
            calls: 0,
            faults: 0,
            refused: 0,
        }
    }

    /// An empty sink with room for `size` bytes, in which no call fails before they are full.
    pub fn with_room(alloc: Global, size: usize) -> Result<MemSink, Memory>
        ensures room { IfOk result (λ sink. size ≤ sink.room) }
        ensures empty { IfOk result (λ sink. sink.bytes ≡ []) }
        ensures list { IfOk result (λ sink. sink.failing ≡ []) }
        ensures counts { IfOk result (λ sink.
            (sink.calls ≡ 0) × (sink.faults ≡ 0) × (sink.refused ≡ 0)) }
    {
        Ok(MemSink {
            bytes: Vec::with_capacity(alloc, size)?,
            failing: Vec::new(alloc),
            calls: 0,
            faults: 0,
            refused: 0,
        })
    }

    /// The bytes that were written.
    pub fn bytes(&self) -> &[u8]
        ensures { result.now ≡ self.now.bytes }
    {
        self.bytes.as_slice()
    }

    /// How many growths were refused for want of memory.
    pub fn refused(&self) -> u64
        ensures { result ≡ self.now.refused }
    {
        self.refused
    }
}

impl Sink for MemSink {
    ghost held = { λ sink. Some sink.bytes };

    ghost faults = { λ sink. sink.faults };

    fn write(&mut self, bytes: &[u8]) -> Result<(), Failed>
        ensures ok { OnOk result (Grows (Some self.old.bytes) (Some self.new.bytes) bytes.now) }
        ensures err { OnErr result
            (GrowsByFront (Some self.old.bytes) (Some self.new.bytes) bytes.now) }
        ensures cause { HasCause self.old.faults self.new.faults result }

        // A call fails exactly where its number is in the list or a growth was refused, and writes
        // nothing then.
        ensures number { self.new.calls ≡ next_count self.old.calls }
        ensures list { self.new.failing ≡ self.old.failing }
        ensures fails { OnErr result (Contains self.old.failing self.new.calls
            ⊎ Rose self.old.refused self.new.refused) }
        ensures listed { Contains self.old.failing self.new.calls →
            self.new.refused ≡ self.old.refused }
        ensures passes { OnOk result ((¬ (Contains self.old.failing self.new.calls))
            × (self.new.refused ≡ self.old.refused)) }
        ensures nothing { OnErr result (self.new.bytes ≡ self.old.bytes) }
        ensures faultless { OnOk result (self.new.faults ≡ self.old.faults) }
        ensures later { self.old.refused ≤ self.new.refused }

        // Within its room no growth is refused, and the room stays.
        ensures within { length self.old.bytes + length bytes.now ≤ self.old.room →
            self.new.refused ≡ self.old.refused }
        ensures room { self.old.room ≤ self.new.room }
    {
        self.calls = self.calls.saturating_add(1);
        if self.failing.contains(&self.calls) {
            self.faults = self.faults.saturating_add(1);
            return Err(Failed);
        }
        if self.bytes.extend_from_slice(bytes).is_err() {
            self.refused = self.refused.saturating_add(1);
            self.faults = self.faults.saturating_add(1);
            return Err(Failed);
        }
        Ok(())
    }
}
