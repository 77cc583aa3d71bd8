//! Pairs of numbers, found by the first one.
ghost use Rattle.std.specs.Prelude.{◌≡◌, ◌==◌, ◌&&◌, IfOk, filter, not};
ghost use Rattle.std.specs.List.{list_any};
ghost use Rattle.std.specs.BTreeSet.{IsOrdered};
ghost use Rattle.ubus_state.specs.Pairs.{has_first, pair_cmp, seconds_in};

use plane_io::Memory;
use std::alloc::Global;
use std::collections::BTreeSet;
use std::collections::btree_set::Range;

/// The two numbers; the first one has more bits, so that another one comes after it.
pub(crate) fn pair(first: u32, second: u32) -> (u64, u32)
    ensures { result ≡ (first, second) }
{
    (u64::from(first), second)
}

/// The pairs of a first number.
pub(crate) fn pairs_of(pairs: &BTreeSet<(u64, u32)>, first: u32) -> Range<'_, (u64, u32)>
    ensures pairs { result ≡ filter (has_first first) pairs.now.keys }
    ensures ordered { IsOrdered pair_cmp pairs.now }
{
    let first = u64::from(first);
    pairs.range((first, 0)..(first + 1, 0))
}

/// Whether there is a pair of the first number.
pub(crate) fn has_pair(pairs: &BTreeSet<(u64, u32)>, first: u32) -> bool
    ensures { result ≡ list_any (has_first first) pairs.now.keys }
{
    pairs_of(pairs, first).next().is_some()
}

/// Whether there is a pair of the first number, but for this one.
pub(crate) fn has_pair_but(pairs: &BTreeSet<(u64, u32)>, first: u32, second: u32) -> bool
    ensures { result
        ≡ list_any (λ pair. has_first first pair && not (pair.1 == second)) pairs.now.keys }
{
    for pair in pairs_of(pairs, first) {
        if pair.1 != second {
            return true;
        }
    }
    false
}

/// What stands beside a first number, by rising value.
pub(crate) fn seconds_of(
    alloc: Global,
    pairs: &BTreeSet<(u64, u32)>,
    first: u32,
) -> Result<Vec<u32>, Memory>
    ensures seconds { IfOk result (λ numbers. numbers.items ≡ seconds_in first pairs.now.keys) }
    ensures ordered { IsOrdered pair_cmp pairs.now }
{
    let mut numbers = Vec::new(alloc);
    for pair in pairs_of(pairs, first) {
        numbers.push(pair.1)?;
    }
    Ok(numbers)
}
