ghost use Rattle.std.specs.Prelude.{◌≡◌, List, ℕ, OnOk, OnErr};
ghost use Rattle.uci_tree.specs.Valid.{IsValid};
ghost use Rattle.uci_delta.specs.Applied.{applied};
ghost use Rattle.uci_delta.specs.Batch.{HasFrontApplied, all_applied, or_before, tree_of};
ghost use Rattle.uci_delta.specs.Placed.{ArePlaced};

use crate::applying::change;
use crate::places::{followed, place_by, places_of};
use crate::{Delta, DeltaError};
use plane_io::{Items, Memory, Text};
use std::alloc::Global;
use std::collections::BTreeMap;
use std::mem;
use uci_tree::{Package, Section};

/// Applies the deltas one after another, as [`crate::apply`] does, and passes over each one that is
/// refused.
///
/// The places of the sections are kept by name, so that an option or a new section of a package
/// with many sections costs no look through them all. Once a section goes, moves or gets another
/// name, each later delta looks through them.
///
/// # Errors
///
/// `Memory` where there was not enough memory; a front of the deltas is applied then.
pub fn apply_all(alloc: Global, package: &mut Package, deltas: &[Delta]) -> Result<(), Memory>
    ensures done { OnOk result («package».new ≡ all_applied «package».old deltas.now) }
    ensures front { OnErr result (HasFrontApplied «package».old deltas.now «package».new) }
    ensures valid { IsValid «package».old → IsValid «package».new }
{
    let sections = mem::replace(&mut package.sections, Items::new(alloc)).into_vec();
    let places = places_of(alloc, sections.as_slice()).ok();
    let mut batch = Batch {
        sections,
        made: package.made,
        places,
    };
    let applied = batch.take_all(alloc, deltas);
    let Batch { sections, made, .. } = batch;
    package.sections = Items::from_vec(sections);
    package.made = made;
    applied
}

/// The sections of a package while deltas are applied, the number of sections that were made, and
/// the place of the first section of each name, where the places are known.
#[derive(Drop)]
struct Batch {
    sections: Vec<Section>,
    made: u64,
    places: Option<BTreeMap<Text, usize>>,
}

impl Batch {
    fn take_all(&mut self, alloc: Global, deltas: &[Delta]) -> Result<(), Memory>
        requires { ArePlaced self.old.places self.old.sections.items }
        ensures done { OnOk result ((name : List ℕ) → tree_of name self.new
            ≡ all_applied (tree_of name self.old) deltas.now) }
        ensures front { OnErr result ((name : List ℕ) →
            HasFrontApplied (tree_of name self.old) deltas.now (tree_of name self.new)) }
    {
        for delta in deltas {
            self.take(alloc, delta)?;
        }
        Ok(())
    }

    /// Applies the delta, and passes over it where it is refused.
    fn take(&mut self, alloc: Global, delta: &Delta) -> Result<(), Memory>
        requires { ArePlaced self.old.places self.old.sections.items }
        ensures placed { OnOk result (ArePlaced self.new.places self.new.sections.items) }
        ensures done { OnOk result ((name : List ℕ) → tree_of name self.new
            ≡ or_before (tree_of name self.old) (applied (tree_of name self.old) delta.now)) }
        ensures kept { OnErr result ((name : List ℕ) → tree_of name self.new
            ≡ tree_of name self.old) }
    {
        let before = self.sections.len();
        let place = place_by(&self.places, self.sections.as_slice(), &delta.section);
        match change(alloc, &mut self.sections, place, delta) {
            Ok(()) => {}
            Err(DeltaError::Memory) => return Err(Memory),
            Err(_) => return Ok(()),
        }
        let more = self.sections.len().saturating_sub(before);
        self.made = self.made.saturating_add(more as u64);
        self.places = followed(self.places.take(), delta, before);
        Ok(())
    }
}
