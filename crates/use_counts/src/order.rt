ghost use Rattle.std.specs.Prelude.{◌≡◌, ◌≤◌, ◌<◌, ◌+◌, length, IfOk, OnOk};
ghost use Rattle.use_counts.specs.Order.{ArePlaced};

use crate::node::Row;
use std::alloc::{AllocError, Global};

/// The VLANs and bridges by their levels, and the rank of each node.
#[derive(Drop)]
pub struct Order {
    pub places: Vec<usize>,
    pub ranks: Vec<usize>,
}

/// Orders those of one level behind the others.
fn add_level(
    rows: &[Row],
    level: u8,
    places: &mut Vec<usize>,
    ranks: &mut Vec<usize>,
) -> Result<(), AllocError>
    requires { ArePlaced rows.now level 0 places.old.items ranks.old.items }
    ensures { OnOk result (ArePlaced rows.now level
        (length rows.now) places.new.items ranks.new.items) }
{
    for place in 0..rows.len() {
        if rows[place].kind.is_made() && rows[place].level == level {
            places.push(place)?;
            ranks[place] = places.len();
        }
    }
    Ok(())
}

impl Order {
    /// The order of some rows.
    pub fn of(alloc: Global, rows: &[Row]) -> Result<Order, AllocError>
        ensures { IfOk result (λ o. ArePlaced rows.now 9 0 o.places.items o.ranks.items) }
    {
        let mut places = Vec::new(alloc);
        let mut ranks = Vec::new(alloc);
        ranks.resize(rows.len(), 0)?;
        for level in 0..9 {
            add_level(rows, level, &mut places, &mut ranks)?;
        }
        Ok(Order { places, ranks })
    }
}
