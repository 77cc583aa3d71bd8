//! Places of the table at which something may come, so that what comes is found without a look at
//! all.
ghost use Rattle.std.specs.Prelude.{◌≡◌, ◌<◌, ◌≤◌, ◌+◌, ◌++◌, ◌∷◌, [], length, slice_index_or};
ghost use Rattle.std.specs.Prelude.{slice_set, swap_remove, vec_len, vec_capacity, true, false};
ghost use Rattle.given_objects.specs.Places.{ArePlaces};

use std::alloc::Global;

/// Places of a table, each listed once, with a flag for each place of the table that tells whether
/// it is listed.
#[derive(Drop)]
pub(crate) struct Places {
    pub(crate) list: Vec<usize>,
    pub(crate) flags: Vec<bool>,
}

/// No places of an empty table. It takes no memory.
pub(crate) fn no_places(alloc: Global) -> Places
    ensures list { result.list.items ≡ [] }
    ensures flags { result.flags.items ≡ [] }
{
    Places {
        list: Vec::new(alloc),
        flags: Vec::new(alloc),
    }
}

/// The table has one place more, which is listed.
pub(crate) fn add_place(places: &mut Places)
    requires places { ArePlaces places.old }
    requires list_room { length places.old.flags.items < vec_capacity places.old.list }
    requires flags_room { length places.old.flags.items < vec_capacity places.old.flags }
    ensures places { ArePlaces places.new }
    ensures flags { places.new.flags.items ≡ places.old.flags.items ++ true ∷ [] }
    ensures list_capacity { vec_capacity places.new.list ≡ vec_capacity places.old.list }
    ensures flags_capacity { vec_capacity places.new.flags ≡ vec_capacity places.old.flags }
{
    places.list.push_reserved(places.flags.len());
    places.flags.push_reserved(true);
}

/// A place is listed, where it is not yet.
pub(crate) fn list_place(places: &mut Places, place: usize)
    requires places { ArePlaces places.old }
    requires within { place < length places.old.flags.items }
    requires room { length places.old.flags.items ≤ vec_capacity places.old.list }
    ensures places { ArePlaces places.new }
    ensures flags { places.new.flags.items ≡ slice_set places.old.flags.items place true }
    ensures list_capacity { vec_capacity places.new.list ≡ vec_capacity places.old.list }
    ensures flags_capacity { vec_capacity places.new.flags ≡ vec_capacity places.old.flags }
{
    if places.flags[place] {
        return;
    }
    places.flags[place] = true;
    places.list.push_reserved(place);
}

/// The place at an index of the list is listed no more. The last of the list stands there then.
pub(crate) fn unlist_place(places: &mut Places, index: usize)
    requires places { ArePlaces places.old }
    requires within { index < vec_len places.old.list }
    ensures places { ArePlaces places.new }
    ensures list { places.new.list.items ≡ swap_remove places.old.list.items index
        (slice_index_or places.old.list.items index 0) }
    ensures flags { places.new.flags.items ≡ slice_set places.old.flags.items
        (slice_index_or places.old.list.items index 0) false }
    ensures size { vec_len places.new.list + 1 ≡ vec_len places.old.list }
    ensures list_capacity { vec_capacity places.new.list ≡ vec_capacity places.old.list }
    ensures flags_capacity { vec_capacity places.new.flags ≡ vec_capacity places.old.flags }
{
    let place = places.list.swap_remove(index);
    places.flags[place] = false;
}
