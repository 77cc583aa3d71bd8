ghost use Rattle.std.specs.Prelude.{◌≡◌, ◌<◌, ◌≤◌, ◌+◌, ◌⊎◌, ℕ, All, Contains, [], IfOk, OnOk};
ghost use Rattle.std.specs.Prelude.{OnErr, IsTrue, length};
ghost use Rattle.use_counts.specs.Uses.{Stay};

use plane_io::Memory;
use std::alloc::Global;
use std::marker::Model;

/// Marked ids in the order in which they came. There is room for all below a number, so marking one
/// takes no memory, and looking through them or dropping them costs as much as are marked.
#[derive(Drop)]
pub struct MarkedIds {
    /// For each id whether it is marked.
    flags: Vec<bool>,
    ids: Vec<usize>,
}

impl Model for MarkedIds {
    ghost use Rattle.use_counts.specs.Uses.{Marking};

    ghost Value = { Marking };

    ghost use Rattle.use_counts.specs.UsesInside.{marking_of, AreFlagged};

    ghost view = { marking_of };

    ghost invariant = { AreFlagged };
}

impl MarkedIds {
    /// No marked ids, and no room for any. It takes no memory.
    pub fn new(alloc: Global) -> MarkedIds
        ensures { result ≡ record { ids = []; room = 0 } }
    {
        MarkedIds {
            flags: Vec::new(alloc),
            ids: Vec::new(alloc),
        }
    }

    /// No marked ids, with room for all below a number.
    pub fn with_room(alloc: Global, room: usize) -> Result<MarkedIds, Memory>
        ensures { IfOk result (λ marks. marks ≡ record { ids = []; room = room }) }
    {
        let mut flags = Vec::new(alloc);
        flags.resize(room, false)?;
        let ids = Vec::with_capacity(alloc, room)?;
        Ok(MarkedIds { flags, ids })
    }

    /// Room for one id more. Where memory lacks, all stays.
    pub fn add_room(&mut self) -> Result<(), Memory>
        ensures ok { OnOk result (self.new ≡ record self.old { room = self.old.room + 1 }) }
        ensures err { OnErr result (self.new ≡ self.old) }
    {
        let more = self.flags.len() - self.ids.len() + 1;
        self.ids.reserve(more)?;
        self.flags.push(false)?;
        Ok(())
    }

    /// Marks an id where the test holds.
    pub fn note(&mut self, id: usize, holds: bool)
        requires { id < self.old.room }
        ensures here { IsTrue holds → Contains self.new.ids id }
        ensures only { (k : ℕ) → Contains self.new.ids k → Contains self.old.ids k ⊎ (k ≡ id) }
        ensures stay { Stay self.old self.new }
    {
        if holds && !self.flags[id] {
            self.flags[id] = true;
            self.ids.push_reserved(id);
        }
    }

    /// The number below which there is room for all ids.
    pub fn room(&self) -> usize
        ensures { result ≡ self.now.room }
    {
        self.flags.len()
    }

    /// The marked ids.
    pub fn ids(&self) -> &[usize]
        ensures ids { result.now ≡ self.now.ids }
        ensures within { All (λ id. id < self.now.room) result.now }
        ensures few { length result.now ≤ self.now.room }
    {
        self.ids.as_slice()
    }

    /// Drops all marks. The room stays.
    pub fn clear(&mut self)
        ensures { self.new ≡ record self.old { ids = [] } }
    {
        while let Some(id) = self.ids.pop() {
            self.flags[id] = false;
        }
    }
}
