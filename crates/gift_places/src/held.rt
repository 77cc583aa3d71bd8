//! What is held of gifts, and nobody gives it.
ghost use Rattle.std.specs.Prelude.{◌≡◌, true, false, OnOk, IfOk};
ghost use Rattle.kern_calls.specs.Upper.{is_upper};
ghost use Rattle.given_objects.specs.Gifts.{has_place};
ghost use Rattle.gift_places.specs.Expecting.{all_held_alone, with_held_alone};

use given_objects::{Gift, GivenObjects};
use plane_io::Memory;
use std::alloc::Global;

/// What is held of gifts, and nobody gives it.
///
/// # Errors
///
/// `Memory` where there is not enough of it.
pub fn held_alone(alloc: Global, gifts: &GivenObjects) -> Result<GivenObjects, Memory>
    ensures { IfOk result (λ alone. alone ≡ all_held_alone gifts.now) }
{
    let mut alone = GivenObjects::new(alloc);
    for place in 0..gifts.len() {
        keep_held(&mut alone, &gifts.gift(place))?;
    }
    Ok(alone)
}

// One more gift, given by nobody, where it is held. None of its object is there.
fn keep_held(alone: &mut GivenObjects, gift: &Gift) -> Result<(), Memory>
    requires new { has_place alone.old gift.now.object ≡ false }
    requires upper { is_upper gift.now.object ≡ true }
    ensures { OnOk result (alone.new ≡ with_held_alone alone.old gift.now) }
{
    if gift.held {
        alone.expect(&gift.object)?;
        alone.note(&gift.object, true);
    }
    Ok(())
}
