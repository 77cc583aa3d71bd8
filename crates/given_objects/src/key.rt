ghost use Rattle.std.specs.Cmp.{partial_equiv_from_equiv};
ghost use Rattle.given_objects.specs.Keys as spec;

use kern_model::Object;
use std::hash::{Hash, Hasher};

/// The key of a gift, which is its object.
#[derive(Clone, Copy)]
pub(crate) struct GiftKey(pub(crate) Object);

impl PartialEq for GiftKey {
    ghost eq = { spec.key_eq };

    ghost laws = { partial_equiv_from_equiv spec.keys_alike };

    fn eq(&self, other: &GiftKey) -> bool {
        self.0.is(&other.0)
    }
}

impl Eq for GiftKey {
    ghost laws = { spec.keys_alike };
}

impl Hash for GiftKey {
    ghost hash_input = { spec.key_input };

    ghost respects_eq = { spec.one_input };

    fn hash<H: Hasher>(&self, state: &mut H) {
        self.0.hash(state);
    }
}
