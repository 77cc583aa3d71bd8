ghost use Rattle.std.specs.Prelude.{◌≡◌, ◌+◌, ℕ, [], ◌∷◌, bytes_eq, ◌&&◌, if◌then◌else◌, map, IfOk};
ghost use Rattle.std.specs.Prelude.{OnOk};
ghost use Rattle.std.specs.BTreeMap.{get};
ghost use Rattle.std.specs.Ordering.{nat_cmp};
ghost use Rattle.std.specs.Cmp.Lexicographic.{slice_cmp};
ghost use Rattle.std.specs.List.{list_any};
ghost use Rattle.net_rules.specs.Firsts.{firsts};
ghost use Rattle.net_rules.specs.Levels.{by_levels};
ghost use Rattle.net_rules.specs.Rows.{is_name, names_of};
ghost use Rattle.net_rules.specs.RadioPorts.{radio_ports_of};
ghost use Rattle.net_rules.specs.Standing.{standing_of_row, lowers_of, stands};
ghost use Rattle.net_rules.specs.Used as spec;
ghost use Rattle.net_rules.specs.Inputs.{facts_of};
ghost use Rattle.net_view.specs.Places.{is_place};
ghost use Rattle.net_view.specs.Names.{HasNames, Adds};
ghost use Rattle.net_view.specs.RadioPorts.{ArePortsOf};
ghost use Rattle.net_view.specs.Levels.{AreLevelsOf};
ghost use Rattle.net_wants.specs.View.{AreClaimed, HasAbove, IsViewOf};

use kern_model::DevName;
use net_rows::{InterfaceRow, NameKind, NameRow};
use net_rules::Inputs;
use net_view::{Levels, RadioPorts, add_all, add_if, is_first};
use plane_io::Memory;
use std::alloc::Global;
use std::collections::BTreeSet;

/// How many levels use is passed down from.
pub const LOWER_LEVELS: u8 = 7;

/// What inputs make available, link and use.
#[derive(Drop)]
pub struct View {
    pub levels: Levels,
    /// The names that interfaces use.
    pub claimed: BTreeSet<DevName>,
    /// The names on which a used name stands.
    pub under: BTreeSet<DevName>,
}

impl View {
    /// The view of inputs.
    pub fn of(alloc: Global, inputs: &Inputs) -> Result<View, Memory>
        ensures { IfOk result (λ view. IsViewOf inputs.now view) }
    {
        let levels = Levels::of(alloc, inputs)?;
        let claimed = claimed_names(alloc, &levels, inputs, inputs.conf.interfaces.as_slice())?;
        let under = names_under(alloc, &levels, inputs, &claimed)?;
        Ok(View {
            levels,
            claimed,
            under,
        })
    }

    /// Whether the name is used.
    pub fn is_used(&self, inputs: &Inputs, name: &DevName) -> bool
        requires { IsViewOf inputs.now self.now }
        ensures { result ≡ spec.used (facts_of inputs.now) name.now }
    {
        serves(&self.levels, inputs, &self.claimed, &self.under, name)
    }
}

// The names that the interfaces use, of one name the first.
fn claimed_names(
    alloc: Global,
    levels: &Levels,
    inputs: &Inputs,
    interfaces: &[InterfaceRow],
) -> Result<BTreeSet<DevName>, Memory>
    requires levels { AreLevelsOf inputs.now levels.now }
    requires interfaces { interfaces.now ≡ inputs.now.conf.interfaces }
    ensures { IfOk result (λ names. HasNames names
        (λ q. list_any (spec.uses (facts_of inputs.now) q)
        (firsts (λ row. row.name) interfaces.now))) }
{
    let mut names = BTreeSet::new(alloc);
    for (place, row) in interfaces.iter().enumerate() {
        add_uses_if_first(&mut names, levels, inputs, row, place)?;
    }
    Ok(names)
}

fn add_uses_if_first(
    names: &mut BTreeSet<DevName>,
    levels: &Levels,
    inputs: &Inputs,
    row: &InterfaceRow,
    place: usize,
) -> Result<(), Memory>
    requires { AreLevelsOf inputs.now levels.now }
    ensures { OnOk result (Adds names.old names.new
        (λ q. list_any (spec.uses (facts_of inputs.now) q)
        (if is_place place (get (slice_cmp nat_cmp) levels.now.ports.index.interfaces row.now.name)
        then row.now ∷ [] else []))) }
{
    if !is_first(&levels.ports.index.interfaces, &row.name, place) {
        return Ok(());
    }
    add_uses(names, levels, inputs, row)
}

fn add_uses(
    names: &mut BTreeSet<DevName>,
    levels: &Levels,
    inputs: &Inputs,
    row: &InterfaceRow,
) -> Result<(), Memory>
    requires { AreLevelsOf inputs.now levels.now }
    ensures { OnOk result (Adds names.old names.new
        (λ q. spec.uses (facts_of inputs.now) q row.now)) }
{
    let is_claimed = levels.is_claimed(inputs, row);
    add_if(names, levels.device_of(inputs, row), is_claimed)?;
    let is_up = levels.is_up(inputs, row);
    add_if(names, levels.l3_device_of(inputs, row), is_up)
}

// Whether a name is used, by what interfaces use and what stands under used names.
fn serves(
    levels: &Levels,
    inputs: &Inputs,
    claimed: &BTreeSet<DevName>,
    under: &BTreeSet<DevName>,
    name: &DevName,
) -> bool
    requires levels { AreLevelsOf inputs.now levels.now }
    requires claimed { AreClaimed inputs.now claimed.now }
    ensures { (k : ℕ) → HasAbove (facts_of inputs.now) k under.now
        → result ≡ by_levels (k + 1) (spec.serves_at (facts_of inputs.now)) name.now }
{
    let is_claimed = claimed.contains(name);
    let is_under = under.contains(name);
    levels.is_available(inputs, name) & (is_claimed | is_under)
}

fn names_under(
    alloc: Global,
    levels: &Levels,
    inputs: &Inputs,
    claimed: &BTreeSet<DevName>,
) -> Result<BTreeSet<DevName>, Memory>
    requires levels { AreLevelsOf inputs.now levels.now }
    requires claimed { AreClaimed inputs.now claimed.now }
    ensures { IfOk result (λ under. HasAbove (facts_of inputs.now) 7 under) }
{
    let mut under = BTreeSet::new(alloc);
    for level in 0..LOWER_LEVELS {
        let names = inputs.conf.names.as_slice();
        under = one_level_under(alloc, levels, inputs, claimed, &under, names)?;
    }
    Ok(under)
}

fn one_level_under(
    alloc: Global,
    levels: &Levels,
    inputs: &Inputs,
    claimed: &BTreeSet<DevName>,
    under: &BTreeSet<DevName>,
    names: &[NameRow],
) -> Result<BTreeSet<DevName>, Memory>
    requires levels { AreLevelsOf inputs.now levels.now }
    requires claimed { AreClaimed inputs.now claimed.now }
    requires names { names.now ≡ inputs.now.conf.names }
    ensures { (k : ℕ) → HasAbove (facts_of inputs.now) k under.now
        → IfOk result (λ more. HasAbove (facts_of inputs.now) (k + 1) more) }
{
    let mut more = BTreeSet::new(alloc);
    for row in names {
        add_lowers_if_used(&mut more, levels, inputs, claimed, under, &row.name)?;
    }
    Ok(more)
}

fn add_lowers_if_used(
    names: &mut BTreeSet<DevName>,
    levels: &Levels,
    inputs: &Inputs,
    claimed: &BTreeSet<DevName>,
    under: &BTreeSet<DevName>,
    upper: &DevName,
) -> Result<(), Memory>
    requires levels { AreLevelsOf inputs.now levels.now }
    requires claimed { AreClaimed inputs.now claimed.now }
    ensures { (k : ℕ) → HasAbove (facts_of inputs.now) k under.now
        → OnOk result (Adds names.old names.new (λ q. stands (facts_of inputs.now) q upper.now
        && by_levels (k + 1) (spec.serves_at (facts_of inputs.now)) upper.now)) }
{
    if !serves(levels, inputs, claimed, under, upper) {
        return Ok(());
    }
    add_lowers(names, &levels.ports, inputs, upper)
}

// Adds the names on which a name stands.
fn add_lowers(
    names: &mut BTreeSet<DevName>,
    ports: &RadioPorts,
    inputs: &Inputs,
    upper: &DevName,
) -> Result<(), Memory>
    requires { ArePortsOf inputs.now ports.now }
    ensures { OnOk result (Adds names.old names.new
        (λ q. stands (facts_of inputs.now) q upper.now)) }
{
    match ports.index.row(inputs, upper) {
        Some(row) => add_lowers_of_row(names, ports, inputs, upper, row),
        None => Ok(()),
    }
}

fn add_lowers_of_row(
    names: &mut BTreeSet<DevName>,
    ports: &RadioPorts,
    inputs: &Inputs,
    upper: &DevName,
    row: &NameRow,
) -> Result<(), Memory>
    requires { ArePortsOf inputs.now ports.now }
    ensures { OnOk result (Adds names.old names.new (λ q. list_any (λ n. bytes_eq n q) (lowers_of
        (standing_of_row row.now (radio_ports_of (facts_of inputs.now) upper.now))))) }
{
    if row.broken {
        return Ok(());
    }
    match &row.kind {
        NameKind::Plain => Ok(()),
        NameKind::Bridge { ports: own, .. } => {
            add_all(names, own.as_slice())?;
            add_all(names, ports.ports_of(upper))
        }
        NameKind::Vlan { lower, .. } => add_if(names, *lower, true),
    }
}
