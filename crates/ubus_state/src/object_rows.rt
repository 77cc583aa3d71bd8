ghost use Rattle.std.specs.Prelude.{◌≡◌, ◌==◌, ◌<◌, ◌≤◌, ◌+◌, ◌++◌, ◌∷◌, [], IfOk, IfSome, OnOk};
ghost use Rattle.std.specs.Prelude.{OnErr, filter, length, map, not, remove};
ghost use Rattle.std.specs.Option.{option_copied, option_to_list};
ghost use Rattle.std.specs.List.{find, list_any, position};
ghost use Rattle.std.specs.List.Sorted.{IsPartitionPoint};
ghost use Rattle.ubus_table.specs.declared.rows.Object.{Object as ObjectRow};
ghost use Rattle.ubus_table.specs.Table.{has_number};
ghost use Rattle.ubus_state.specs.Among.{objects_but};
ghost use Rattle.ubus_state.specs.Pairs.{HasPairs, owner_pair, type_pair};
ghost use Rattle.ubus_state.specs.Paths.{HasPaths, IsFree, has_path};
ghost use Rattle.ubus_state.specs.Rising.{IsRising, Rise, object_number};

use crate::call_rows::place_if;
use crate::pairs::{has_pair_but, pair, pairs_of, seconds_of};
use crate::paths::{forget_path, note_path};
use plane_io::{Memory, Text};
use std::alloc::Global;
use std::collections::{BTreeMap, BTreeSet};
use ubus_table::Object;

/// Objects by rising number, found by owner, type and path too, and the number of the next one.
#[derive(Drop)]
pub struct ObjectRows {
    pub rows: Vec<Object>,
    pub next: u64,
    /// Owners and numbers.
    pub by_owner: BTreeSet<(u64, u32)>,
    /// Types and numbers.
    pub by_type: BTreeSet<(u64, u32)>,
    /// The number of the object of each path.
    pub by_path: BTreeMap<Text, u32>,
    pub ghost rising: { IsRising object_number rows.items next },
    pub ghost owned: { HasPairs by_owner (map owner_pair rows.items) },
    pub ghost typed: { HasPairs by_type (map type_pair rows.items) },
    pub ghost named: { HasPaths by_path rows.items },
}

impl ObjectRows {
    /// No objects yet.
    pub fn new(alloc: Global, next: u64) -> ObjectRows
        ensures rows { result.rows.items ≡ [] }
        ensures next { result.next ≡ next }
    {
        ObjectRows {
            rows: Vec::new(alloc),
            next,
            by_owner: BTreeSet::new(alloc),
            by_type: BTreeSet::new(alloc),
            by_path: BTreeMap::new(alloc),
        }
    }

    /// The object of a number, which has more bits where it is an argument of a method.
    pub fn find(&self, number: u64) -> Option<&Object>
        ensures { option_copied result ≡ find (has_number number) self.now.rows.items }
    {
        object_numbered(&self.rows, number)
    }

    /// The first object of a type.
    pub fn find_of_type(&self, objtype: u32) -> Option<&Object>
        ensures { option_copied result
            ≡ find (λ (object : ObjectRow). object.objtype == objtype) self.now.rows.items }
    {
        match pairs_of(&self.by_type, objtype).next() {
            Some(first) => self.find(u64::from(first.1)),
            None => None,
        }
    }

    /// Whether an object has the type; an object that leaves does not count.
    pub fn has_type_but(&self, left: u32, objtype: u32) -> bool
        ensures { result ≡ list_any (λ (object : ObjectRow). object.objtype == objtype)
            (filter (λ object. not (has_number left object)) self.now.rows.items) }
    {
        has_pair_but(&self.by_type, objtype, left)
    }

    /// The object of a path, which no other one has.
    pub fn find_of_path(&self, path: &Text) -> Option<&Object>
        ensures { filter (has_path path.now) self.now.rows.items
            ≡ option_to_list (option_copied result) }
    {
        match self.by_path.get(path) {
            Some(number) => self.find(u64::from(*number)),
            None => None,
        }
    }

    /// Whether an object has the path.
    pub fn has_path(&self, path: &Text) -> bool
        ensures { result ≡ list_any (has_path path.now) self.now.rows.items }
    {
        self.by_path.contains_key(path)
    }

    /// The numbers of a client's objects, as they were added.
    pub fn numbers_of(&self, alloc: Global, client: u32) -> Result<Vec<u32>, Memory>
        ensures { IfOk result (λ numbers. numbers.items ≡ map object_number
            (filter (λ (object : ObjectRow). object.owner == client) self.now.rows.items)) }
    {
        seconds_of(alloc, &self.by_owner, client)
    }

    /// Adds the next object. Where there is not enough memory, all stays.
    pub fn push(&mut self, object: Object) -> Result<(), Memory>
        requires next { object.number ≡ self.old.next }
        requires free { IsFree object.path self.old.rows.items }
        ensures rows { OnOk result (self.new.rows.items ≡ self.old.rows.items ++ object ∷ []) }
        ensures next { OnOk result (self.new.next ≡ object.number + 1) }
        ensures err { OnErr result (self.new.rows.items ≡ self.old.rows.items) }
        ensures err_next { OnErr result (self.new.next ≡ self.old.next) }
    {
        let next = u64::from(object.number) + 1;
        let owned = pair(object.owner, object.number);
        let typed = pair(object.objtype, object.number);
        self.rows.reserve(1)?;
        self.by_owner.insert(owned)?;
        let Ok(_) = self.by_type.insert(typed) else {
            self.by_owner.remove(&owned);
            return Err(Memory);
        };
        let Ok(()) = note_path(&mut self.by_path, &object.path, object.number) else {
            self.by_owner.remove(&owned);
            self.by_type.remove(&typed);
            return Err(Memory);
        };
        self.rows.push_reserved(object);
        self.next = next;
        Ok(())
    }

    /// Drops the object of a number.
    pub fn remove(&mut self, number: u32)
        ensures rows { self.new.rows.items
            ≡ filter (λ object. not (has_number number object)) self.old.rows.items }
        ensures next { self.new.next ≡ self.old.next }
    {
        if let Some(place) = place_numbered(&self.rows, number) {
            self.take(place);
        }
    }

    fn take(&mut self, place: usize)
        requires { place < length self.old.rows.items }
        ensures rows { self.new.rows.items ≡ remove self.old.rows.items place }
        ensures next { self.new.next ≡ self.old.next }
    {
        let object = self.rows.remove(place);
        self.by_owner.remove(&pair(object.owner, object.number));
        self.by_type.remove(&pair(object.objtype, object.number));
        forget_path(&mut self.by_path, &object.path);
    }

    /// Drops the objects of these numbers.
    pub fn remove_among(&mut self, numbers: &[u32])
        ensures rows { self.new.rows.items ≡ objects_but numbers.now self.old.rows.items }
        ensures next { self.new.next ≡ self.old.next }
    {
        for number in numbers {
            self.remove(*number);
        }
    }
}

/// Where the object of a number stands.
fn place_numbered(objects: &[Object], number: u32) -> Option<usize>
    requires { Rise object_number objects.now }
    ensures place { result ≡ position (has_number number) objects.now }
    ensures within { IfSome result (λ place. place < length objects.now) }
{
    let place = lower_objects(objects, u64::from(number));
    match objects.get(place) {
        Some(object) => place_if(object.number == number, place),
        None => None,
    }
}

fn object_numbered(objects: &[Object], number: u64) -> Option<&Object>
    requires { Rise object_number objects.now }
    ensures { option_copied result ≡ find (has_number number) objects.now }
{
    let place = lower_objects(objects, number);
    match objects.get(place) {
        Some(object) => object_of_number(object, number),
        None => None,
    }
}

/// How many objects have lower numbers.
fn lower_objects(objects: &[Object], number: u64) -> usize
    requires { Rise object_number objects.now }
    ensures { IsPartitionPoint (λ (object : ObjectRow). object.number < number)
        (λ (object : ObjectRow). number ≤ object.number) objects.now result }
{
    objects.partition_point(|object| u64::from(object.number) < number)
}

/// The object, where it has the number.
fn object_of_number(object: &Object, number: u64) -> Option<&Object>
    ensures { option_copied result ≡ find (has_number number) (object.now ∷ []) }
{
    if u64::from(object.number) == number {
        Some(object)
    } else {
        None
    }
}
