//! Which slots an id decides: those of the wishes of which it is one of the two ids.
ghost use Rattle.std.specs.Prelude.{◌≡◌, ◌<◌, ℕ, length, Contains, OnOk};
ghost use Rattle.graph_objects.specs.Deciders as spec;

use crate::slot::Wish;
use plane_io::Memory;

/// Makes room for the list of an id.
fn make_list(by_id: &mut Vec<Vec<usize>>, id: usize) -> Result<(), Memory>
    ensures ok { OnOk result (id < length by_id.new.items) }
    ensures same { (n : ℕ) → spec.slots_of by_id.new.items n ≡ spec.slots_of by_id.old.items n }
{
    let alloc = *by_id.allocator();
    while by_id.len() <= id {
        by_id.push(Vec::new(alloc))?;
    }
    Ok(())
}

/// Lists a slot at an id.
fn list(by_id: &mut Vec<Vec<usize>>, id: usize, index: usize) -> Result<(), Memory>
    ensures ok { OnOk result (Contains (spec.slots_of by_id.new.items id) index) }
    ensures more { spec.HasListed by_id.old.items by_id.new.items index }
{
    make_list(by_id, id)?;
    by_id[id].push(index)?;
    Ok(())
}

/// Lists the slot of a wish at its two ids, once where they are the same.
pub(crate) fn list_wish(
    by_id: &mut Vec<Vec<usize>>,
    wish: &Wish,
    index: usize,
) -> Result<(), Memory>
    ensures first { OnOk result (Contains (spec.slots_of by_id.new.items wish.now.first) index) }
    ensures second { OnOk result (Contains (spec.slots_of by_id.new.items wish.now.second) index) }
    ensures more { spec.HasListed by_id.old.items by_id.new.items index }
{
    list(by_id, wish.first, index)?;
    if wish.first == wish.second {
        return Ok(());
    }
    list(by_id, wish.second, index)
}

/// The slots that are listed at an id.
pub(crate) fn slots_of(by_id: &[Vec<usize>], id: usize) -> &[usize]
    ensures { result.now ≡ spec.slots_of by_id.now id }
{
    match by_id.get(id) {
        Some(slots) => slots,
        None => &[],
    }
}
