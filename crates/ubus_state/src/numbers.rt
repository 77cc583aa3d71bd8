ghost use Rattle.std.specs.Prelude.{◌≡◌, IfOk};
ghost use Rattle.std.specs.Ordering.{nat_cmp};
ghost use Rattle.plane_words.specs.InOrder.{ordered};

use plane_io::Memory;
use std::alloc::Global;
use std::collections::BTreeSet;

/// The numbers by rising value, each once.
pub fn ordered_numbers(alloc: Global, numbers: &[u32]) -> Result<Vec<u32>, Memory>
    ensures { IfOk result (λ rising. rising.items ≡ ordered nat_cmp numbers.now) }
{
    let set = number_set(alloc, numbers)?;
    listed(alloc, set)
}

fn number_set(alloc: Global, numbers: &[u32]) -> Result<BTreeSet<u32>, Memory>
    ensures { IfOk result (λ set. set.keys ≡ ordered nat_cmp numbers.now) }
{
    let mut set = BTreeSet::new(alloc);
    for place in (0..numbers.len()).rev() {
        let _added = set.insert(numbers[place])?;
    }
    Ok(set)
}

fn listed(alloc: Global, set: BTreeSet<u32>) -> Result<Vec<u32>, Memory>
    ensures { IfOk result (λ rising. rising.items ≡ set.keys) }
{
    let mut rising = Vec::new(alloc);
    for number in set {
        rising.push(number)?;
    }
    Ok(rising)
}
