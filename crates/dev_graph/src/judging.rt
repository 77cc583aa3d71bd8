//! What is wanted after an event.
ghost use Rattle.std.specs.Prelude.{◌≡◌, ◌<◌, ℕ, [], map, length, Contains};
ghost use Rattle.graph_rules.specs.State.{Known};
ghost use Rattle.graph_counts.specs.Sound.{IsSound};
ghost use Rattle.graph_tables.specs.Wishes.{mays};
ghost use Rattle.graph_tables.specs.Wished.{wish_in};
ghost use Rattle.graph_tables.specs.Lists.{AreUsed, HaveSame};
ghost use Rattle.graph_tables.specs.Differing.{DiffersAt};

use graph_counts::CountedNames;
use graph_objects::DeviceObjects;
use graph_tables::judge_marked;
use use_counts::MarkedIds;

/// What may be wanted is judged by the ids whose use an event changed, and none of them is noted
/// any more.
pub(crate) fn judge_uses(
    names: &CountedNames,
    used: &mut Vec<bool>,
    uses: &mut MarkedIds,
    objects: &mut DeviceObjects,
)
    requires sound { IsSound names.now }
    requires ids { (id : ℕ) → Contains uses.old.ids id → id < length names.now.names }
    requires before { (before : Known) × DiffersAt before names.now uses.old.ids used.old.items
        objects.old.wishes }
    ensures size { length used.new.items ≡ length names.now.names }
    ensures used { AreUsed names.now used.new.items }
    ensures uses { uses.new ≡ record uses.old { ids = [] } }
    ensures held { objects.new.held ≡ objects.old.held }
    ensures wishes { HaveSame objects.new.wishes (map (wish_in names.now) (mays names.now)) }
{
    judge_marked(names, used, uses.ids(), objects);
    uses.clear();
}
