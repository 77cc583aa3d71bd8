ghost use Rattle.std.specs.Prelude.{◌≡◌, Some, nat_eq, refl};
ghost use Rattle.std.specs.Ordering.{nat_cmp};
ghost use Rattle.std.specs.Cmp.{partial_equiv_from_equiv};
ghost use Rattle.std.specs.Cmp.Lexicographic.{pointwise, slice_cmp, nat_list_eq_equiv};
ghost use Rattle.std.specs.Cmp.Lexicographic.{nat_list_cmp_total, texts_ties, texts_po};
ghost use Rattle.kern_model.specs.Line.{line_of};

use kern_model::{Call, print_call};
use std::cmp::Ordering;
use std::marker::Model;

/// The line of a call, which takes no memory of its own. Lines are ordered by their bytes.
#[derive(Drop)]
pub(crate) struct Line {
    bytes: [u8; 256],
    length: u8,
}

impl Model for Line {
    ghost use Rattle.std.specs.Prelude.{ℕ, List, take};

    ghost Value = { List ℕ };

    ghost view = { λ line. take line.length line.bytes };
}

impl Line {
    pub(crate) fn of(call: &Call) -> Line
        ensures { result ≡ line_of call.now }
    {
        let mut bytes = [0u8; 256];
        let length = print_call(call, &mut bytes) as u8;
        Line { bytes, length }
    }

    fn text(&self) -> &[u8]
        ensures { result.now ≡ self.now }
    {
        &self.bytes[..usize::from(self.length)]
    }
}

impl PartialEq for Line {
    ghost eq = { pointwise nat_eq };

    ghost laws = { partial_equiv_from_equiv nat_list_eq_equiv };

    fn eq(&self, other: &Line) -> bool {
        self.text() == other.text()
    }
}

impl Eq for Line {
    ghost laws = { nat_list_eq_equiv };
}

impl PartialOrd for Line {
    ghost partial_cmp = { λ x y. Some (slice_cmp nat_cmp x y) };

    ghost laws = { texts_po };

    fn partial_cmp(&self, other: &Line) -> Option<Ordering> {
        Some(self.cmp(other))
    }
}

impl Ord for Line {
    ghost cmp = { slice_cmp nat_cmp };

    ghost total = { nat_list_cmp_total };

    ghost matches_partial_cmp = { λ x y. refl };

    ghost matches_eq = { texts_ties };

    fn cmp(&self, other: &Line) -> Ordering {
        self.text().cmp(other.text())
    }
}
