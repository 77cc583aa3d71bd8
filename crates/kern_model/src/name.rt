ghost use Rattle.std.specs.Prelude.{◌≡◌, ◌↔◌, ◌≤◌, length, IsTrue, IfSome, IfNone, Some, false};
ghost use Rattle.std.specs.Prelude.{true, nat_eq, refl};
ghost use Rattle.std.specs.Ordering.{nat_cmp};
ghost use Rattle.std.specs.Cmp.{partial_equiv_from_equiv};
ghost use Rattle.std.specs.Cmp.Lexicographic.{pointwise, slice_cmp, nat_list_eq_equiv};
ghost use Rattle.std.specs.Cmp.Lexicographic.{nat_list_cmp_total, texts_ties, texts_po};
ghost use Rattle.std.specs.List.{list_all};
ghost use Rattle.kern_model.specs.Name.{is_name, is_name_byte};

use std::cmp::Ordering;
use std::marker::Model;

/// The name of a network device: 1 to 15 bytes from 33 to 126 but `/` and `:`, and neither `.` nor
/// `..`. Contracts see its bytes, and names are ordered by them.
#[derive(Clone, Copy, Hash)]
pub struct DevName {
    pub bytes: [u8; 15],
    pub length: u8,
}

impl Model for DevName {
    ghost use Rattle.std.specs.Prelude.{ℕ, List};

    ghost Value = { List ℕ };

    ghost use Rattle.kern_model.specs.NameInside.{name_view, IsStored, stored, stored-view};

    ghost view = { name_view };

    ghost invariant = { IsStored };

    ghost inverse = { stored };

    ghost inverse_ok = { stored-view };
}

impl DevName {
    /// The bytes of the name.
    pub fn text(&self) -> &[u8]
        ensures bytes { result.now ≡ self.now }
        ensures name { is_name self.now ≡ true }
        ensures short { length self.now ≤ 15 }
    {
        &self.bytes[..usize::from(self.length)]
    }

    /// Whether both are one name.
    pub fn same(&self, other: &DevName) -> bool
        ensures { IsTrue result ↔ (self.now ≡ other.now) }
    {
        self.text() == other.text()
    }
}

impl PartialEq for DevName {
    ghost eq = { pointwise nat_eq };

    ghost laws = { partial_equiv_from_equiv nat_list_eq_equiv };

    fn eq(&self, other: &DevName) -> bool {
        self.text() == other.text()
    }
}

impl Eq for DevName {
    ghost laws = { nat_list_eq_equiv };
}

impl PartialOrd for DevName {
    ghost partial_cmp = { λ x y. Some (slice_cmp nat_cmp x y) };

    ghost laws = { texts_po };

    fn partial_cmp(&self, other: &DevName) -> Option<Ordering> {
        Some(self.cmp(other))
    }
}

impl Ord for DevName {
    ghost cmp = { slice_cmp nat_cmp };

    ghost total = { nat_list_cmp_total };

    ghost matches_partial_cmp = { λ x y. refl };

    ghost matches_eq = { texts_ties };

    // Most names differ in their first byte, which costs no call.
    fn cmp(&self, other: &DevName) -> Ordering {
        match self.bytes[0].cmp(&other.bytes[0]) {
            Ordering::Equal => self.text().cmp(other.text()),
            unequal => unequal,
        }
    }
}

/// Reads a device name, or `None` where the text is none.
pub fn read_name(text: &[u8]) -> Option<DevName>
    ensures some { IfSome result (λ name. (name ≡ text.now) × (is_name text.now ≡ true)) }
    ensures none { IfNone result (is_name text.now ≡ false) }
{
    if text.is_empty() || text.len() > 15 || !has_name_bytes(text) {
        return None;
    }
    if text == b".".as_slice() || text == b"..".as_slice() {
        return None;
    }
    let mut bytes = [0u8; 15];
    bytes[..text.len()].copy_from_slice(text);
    let length = text.len() as u8;
    Some(DevName { bytes, length })
}

fn has_name_bytes(text: &[u8]) -> bool
    ensures { result ≡ list_all is_name_byte text.now }
{
    text.iter()
        .all(|b| *b >= 33 && *b <= 126 && *b != b'/' && *b != b':')
}
