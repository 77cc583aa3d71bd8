//! Which names are used, and what is wanted by it.
ghost use Rattle.std.specs.Prelude.{◌≡◌, ◌<◌, ℕ, map, length, Contains};
ghost use Rattle.graph_rules.specs.State.{Known, names_in};
ghost use Rattle.graph_wishes.specs.Wishes.{mays};
ghost use Rattle.graph_counts.specs.Sound.{IsSound};
ghost use Rattle.graph_tables.specs.Wished.{wishes_at, wish_in};
ghost use Rattle.graph_tables.specs.Lists.{AreUsed, HaveSame, unjudged};
ghost use Rattle.graph_tables.specs.Differing.{SeesSome, DiffersAt};

use graph_counts::CountedNames;
use graph_objects::DeviceObjects;
use graph_rules::DevId;

/// Looks for each id whether its name is used.
fn look(names: &CountedNames, used: &mut Vec<bool>)
    requires size { length used.old.items ≡ length names.now.names }
    ensures size { length used.new.items ≡ length names.now.names }
    ensures used { AreUsed names.now used.new.items }
{
    for id in 0..used.len() {
        let is_used = names.used(DevId(id));
        used[id] = is_used;
    }
}

/// What may be wanted is wanted where both names are used. The marks say of each id whether its
/// name is used.
pub fn judge(names: &CountedNames, used: &mut Vec<bool>, objects: &mut DeviceObjects)
    requires sound { IsSound names.now }
    requires size { length used.old.items ≡ length names.now.names }
    requires wishes { HaveSame (map unjudged objects.old.wishes)
        (wishes_at (names_in names.now) (mays names.now)) }
    ensures size { length used.new.items ≡ length names.now.names }
    ensures used { AreUsed names.now used.new.items }
    ensures held { objects.new.held ≡ objects.old.held }
    ensures wishes { HaveSame objects.new.wishes (map (wish_in names.now) (mays names.now)) }
{
    look(names, used);
    objects.judge(used.as_slice());
}

/// Looks for each of some ids whether its name is used.
fn look_at(names: &CountedNames, used: &mut Vec<bool>, ids: &[usize])
    requires size { length used.old.items ≡ length names.now.names }
    requires ids { (id : ℕ) → Contains ids.now id → id < length names.now.names }
    ensures size { length used.new.items ≡ length names.now.names }
    ensures used { SeesSome names.now ids.now used.old.items used.new.items }
{
    for id in ids {
        let is_used = names.used(DevId(*id));
        used[*id] = is_used;
    }
}

/// What may be wanted is wanted where both names are used, after the use of some ids alone has
/// changed. The marks say of each id whether its name is used.
pub fn judge_marked(
    names: &CountedNames,
    used: &mut Vec<bool>,
    ids: &[usize],
    objects: &mut DeviceObjects,
)
    requires sound { IsSound names.now }
    requires ids { (id : ℕ) → Contains ids.now id → id < length names.now.names }
    requires before { (before : Known) × DiffersAt before names.now ids.now used.old.items
        objects.old.wishes }
    ensures size { length used.new.items ≡ length names.now.names }
    ensures used { AreUsed names.now used.new.items }
    ensures held { objects.new.held ≡ objects.old.held }
    ensures wishes { HaveSame objects.new.wishes (map (wish_in names.now) (mays names.now)) }
{
    look_at(names, used, ids);
    objects.judge_ids(used.as_slice(), ids);
}
