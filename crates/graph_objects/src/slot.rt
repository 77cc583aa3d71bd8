ghost use Rattle.std.specs.Prelude.{◌≡◌};
ghost use Rattle.graph_objects.specs.Slots as spec;

use kern_model::Object;

/// An object that is wanted where the names of two ids are used.
#[derive(Clone, Copy)]
pub struct Wish {
    pub object: Object,
    pub first: usize,
    pub second: usize,
    pub wanted: bool,
}

/// What is held and what may be wanted at a key, and whether the held object is about to leave.
#[derive(Clone, Copy)]
pub(crate) struct Slot {
    pub(crate) held: Option<Object>,
    pub(crate) wish: Option<Wish>,
    pub(crate) leaves: bool,
}

/// What is held, or what is wanted.
#[derive(Clone, Copy)]
pub(crate) enum Side {
    Held,
    Wanted,
}

/// The object of a wish, where it is wanted.
fn wished(wish: &Wish) -> Option<Object>
    ensures { result ≡ spec.wished wish.now }
{
    if wish.wanted { Some(wish.object) } else { None }
}

/// The object of a slot on a side.
pub(crate) fn on(side: Side, slot: &Slot) -> Option<Object>
    ensures { result ≡ spec.on side slot.now }
{
    match side {
        Side::Held => slot.held,
        Side::Wanted => match &slot.wish {
            Some(wish) => wished(wish),
            None => None,
        },
    }
}
