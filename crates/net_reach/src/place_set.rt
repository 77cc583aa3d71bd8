ghost use Rattle.std.specs.Prelude.{◌≡◌, ◌≤◌, [], length, IfOk};
ghost use Rattle.std.specs.List.Sorted.{IsPermutation, IsStrictlySortedBy};
ghost use Rattle.std.specs.Ordering.{nat_cmp};
ghost use Rattle.net_reach.specs.Places.{with_place, with_places};

use plane_io::Memory;
use std::alloc::Global;
use std::marker::Model;

/// Places below a bound, each once. They take no memory once the set is made.
#[derive(Drop)]
pub struct PlaceSet {
    list: Vec<usize>,
    /// Which places are in the list.
    marks: Vec<bool>,
}

impl Model for PlaceSet {
    ghost use Rattle.net_reach.specs.Places.{Places};

    ghost Value = { Places };

    ghost use Rattle.net_reach.specs.PlaceInside.{places_in, IsKept};

    ghost view = { places_in };

    ghost invariant = { IsKept };
}

impl PlaceSet {
    /// No places, with room for all below a bound.
    pub fn new(alloc: Global, bound: usize) -> Result<PlaceSet, Memory>
        ensures { IfOk result (λ set. set ≡ record { bound = bound; list = [] }) }
    {
        let list = Vec::with_capacity(alloc, bound)?;
        let mut marks = Vec::new(alloc);
        marks.resize(bound, false)?;
        Ok(PlaceSet { list, marks })
    }

    /// No places, without room for any. It takes no memory.
    pub fn empty(alloc: Global) -> PlaceSet
        ensures { result ≡ record { bound = 0; list = [] } }
    {
        PlaceSet {
            list: Vec::new(alloc),
            marks: Vec::new(alloc),
        }
    }

    /// The places.
    pub fn places(&self) -> &[usize]
        ensures places { result.now ≡ self.now.list }
        ensures few { length self.now.list ≤ self.now.bound }
    {
        self.list.as_slice()
    }

    /// Adds a place below the bound at the end, where it is not among them.
    pub fn add(&mut self, place: usize)
        ensures { self.new ≡ with_place self.old place }
    {
        if place >= self.marks.len() {
            return;
        }
        if self.marks[place] {
            return;
        }
        self.marks[place] = true;
        self.list.push_reserved(place);
    }

    /// Adds places, one after the other.
    pub fn add_all(&mut self, places: &[usize])
        ensures { self.new ≡ with_places self.old places.now }
    {
        for place in places {
            self.add(*place);
        }
    }

    /// Takes all places out.
    pub fn clear(&mut self)
        ensures { self.new ≡ record self.old { list = [] } }
    {
        while let Some(place) = self.list.pop() {
            self.marks[place] = false;
        }
    }

    /// The places in rising order.
    pub fn sort(&mut self)
        ensures bound { self.new.bound ≡ self.old.bound }
        ensures same { IsPermutation self.old.list self.new.list }
        ensures rising { IsStrictlySortedBy nat_cmp self.new.list }
    {
        self.list.sort_unstable();
    }
}
