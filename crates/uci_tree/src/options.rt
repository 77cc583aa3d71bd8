ghost use Rattle.std.specs.Prelude.{◌≡◌, ◌↔◌, ℕ, [], ◌∷◌, IfOk, OnOk, IfSome, IfNone, IsTrue};
ghost use Rattle.uci_tree.specs.Fold as fold;
ghost use Rattle.uci_tree.specs.Slots.{AreIndexed, Holds, HoldsAt, options_of, value_of, Noted};

use crate::{Opt, Value};
use plane_io::{Items, Memory, Text};
use std::alloc::Global;
use std::collections::BTreeMap;

/// So many slots are looked through one by one. Those after them are looked up in a map.
const SCANNED: usize = 8;

/// The options of a section while its commands are read: a slot for each that was added, empty
/// where it was removed, and the place of the slot of each name, but for the first slots.
#[derive(Drop)]
pub struct Options {
    slots: Vec<Option<Opt>>,
    places: BTreeMap<Text, usize>,
}

impl Options {
    /// No options.
    pub fn new(alloc: Global) -> Options
        ensures indexed { AreIndexed result }
        ensures none { options_of result ≡ [] }
    {
        Options {
            slots: Vec::new(alloc),
            places: BTreeMap::new(alloc),
        }
    }

    /// Does what `option NAME VALUE` says.
    pub fn set(&mut self, name: Text, value: Text) -> Result<(), Memory>
        requires { AreIndexed self.old }
        ensures indexed { OnOk result (AreIndexed self.new) }
        ensures made { OnOk result
            (options_of self.new ≡ fold.with_option name value (options_of self.old)) }
    {
        if value.as_bytes().is_empty() {
            self.remove(&name);
            return Ok(());
        }
        self.put(name, Value::One(value))
    }

    /// Does what `list NAME ITEM` says.
    pub fn append(&mut self, alloc: Global, name: Text, item: Text) -> Result<(), Memory>
        requires { AreIndexed self.old }
        ensures indexed { OnOk result (AreIndexed self.new) }
        ensures made { OnOk result
            (options_of self.new ≡ fold.with_item name item (options_of self.old)) }
    {
        let Some(place) = self.place_of(&name) else {
            let items = list_of(alloc, item)?;
            return self.put(name, Value::Many(items));
        };
        let slot = &mut self.slots[place];
        let before = slot.take();
        let value = appended(alloc, before, item)?;
        *slot = Some(Opt { name, value });
        Ok(())
    }

    /// Gives the options that are there, in their order.
    pub fn finish(self, alloc: Global) -> Result<Items<Opt>, Memory>
        ensures { IfOk result (λ options. options ≡ options_of self) }
    {
        let Options { slots, .. } = self;
        let mut options = Items::new(alloc);
        for slot in slots {
            if let Some(option) = slot {
                options.push(option)?;
            }
        }
        Ok(options)
    }

    /// The place of the slot that has an option of this name.
    fn place_of(&self, name: &Text) -> Option<usize>
        requires { AreIndexed self.now }
        ensures found { IfSome result (λ place. HoldsAt name.now self.now.slots.items place) }
        ensures none { IfNone result ((place : ℕ) →
            HoldsAt name.now self.now.slots.items place → ⊥) }
    {
        let count = self.slots.len().min(SCANNED);
        let (first, _) = self.slots.as_slice().split_at(count);
        match first_place(first, name) {
            Some(place) => Some(place),
            None => self.places.get(name).copied(),
        }
    }

    fn put(&mut self, name: Text, value: Value) -> Result<(), Memory>
        requires { AreIndexed self.old }
        ensures indexed { OnOk result (AreIndexed self.new) }
        ensures made { OnOk result
            (options_of self.new ≡ fold.put name (λ before. value) (options_of self.old)) }
    {
        if let Some(place) = self.place_of(&name) {
            self.slots[place] = Some(Opt { name, value });
            return Ok(());
        }
        note(&mut self.places, &name, self.slots.len())?;
        self.slots.push(Some(Opt { name, value }))?;
        Ok(())
    }

    fn remove(&mut self, name: &Text)
        requires { AreIndexed self.old }
        ensures indexed { AreIndexed self.new }
        ensures made { options_of self.new ≡ fold.without name.now (options_of self.old) }
    {
        if let Some(place) = self.place_of(name) {
            self.slots[place] = None;
            let _place = self.places.remove(name);
        }
    }
}

fn holds(slot: &Option<Opt>, name: &Text) -> bool
    ensures { IsTrue result ↔ Holds name.now slot.now }
{
    match slot {
        Some(option) => option.name.as_bytes() == name.as_bytes(),
        None => false,
    }
}

/// The place of the first slot that has an option of this name.
fn first_place(slots: &[Option<Opt>], name: &Text) -> Option<usize>
    ensures found { IfSome result (λ place. HoldsAt name.now slots.now place) }
    ensures none { IfNone result ((place : ℕ) → HoldsAt name.now slots.now place → ⊥) }
{
    for (place, slot) in slots.iter().enumerate() {
        if holds(slot, name) {
            return Some(place);
        }
    }
    None
}

// Notes the place of a name, but for the first places.
fn note(places: &mut BTreeMap<Text, usize>, name: &Text, place: usize) -> Result<(), Memory>
    ensures { OnOk result (Noted places.old places.new name.now place) }
{
    if place < SCANNED {
        return Ok(());
    }
    let _none = places.insert(name.copy()?, place)?;
    Ok(())
}

fn appended(alloc: Global, option: Option<Opt>, item: Text) -> Result<Value, Memory>
    ensures { IfOk result (λ made. made ≡ fold.appended item (value_of option)) }
{
    let Some(option) = option else {
        return Ok(Value::Many(list_of(alloc, item)?));
    };
    let Opt { value, .. } = option;
    let mut items = match value {
        Value::One(first) => list_of(alloc, first)?,
        Value::Many(items) => items,
    };
    items.push(item)?;
    Ok(Value::Many(items))
}

fn list_of(alloc: Global, item: Text) -> Result<Items<Text>, Memory>
    ensures { IfOk result (λ items. items ≡ item ∷ []) }
{
    let mut items = Items::new(alloc);
    items.push(item)?;
    Ok(items)
}
