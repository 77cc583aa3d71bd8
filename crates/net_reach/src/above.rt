//! The rows of names that stand right on each name.
ghost use Rattle.std.specs.Prelude.{◌≡◌, ◌||◌, ℕ, List, Bool, IfOk, OnOk, bytes_eq, map};
ghost use Rattle.std.specs.List.{list_any};
ghost use Rattle.net_rules.specs.Rows.{is_name};
ghost use Rattle.net_rules.specs.RadioPorts.{radio_ports_of};
ghost use Rattle.net_rules.specs.Standing.{standing_of_row, lowers_of, stands};
ghost use Rattle.net_rules.specs.Inputs.{facts_of};
ghost use Rattle.net_view.specs.RadioPorts.{ArePortsOf};
ghost use Rattle.net_reach.specs.Groups.{Groups, HasGroups, Gains, AreBelow};
ghost use Rattle.net_reach.specs.Reach.{stands_on};

use crate::groups::add_last;
use kern_model::DevName;
use net_rows::{NameKind, NameRow};
use net_rules::Inputs;
use net_view::RadioPorts;
use plane_io::Memory;
use std::alloc::Global;
use std::collections::BTreeMap;

/// The names of rows, by their places.
pub(crate) fn row_names(alloc: Global, rows: &[NameRow]) -> Result<Vec<DevName>, Memory>
    ensures { IfOk result (λ names. names.items ≡ map (λ row. row.name) rows.now) }
{
    let mut names = Vec::new(alloc);
    for row in rows {
        names.push(row.name)?;
    }
    Ok(names)
}

/// The places of the rows that stand right on each name.
pub(crate) fn rows_above(
    alloc: Global,
    ports: &RadioPorts,
    inputs: &Inputs,
    rows: &[NameRow],
) -> Result<BTreeMap<DevName, Vec<usize>>, Memory>
    requires { ArePortsOf inputs.now ports.now }
    ensures { IfOk result (λ above. HasGroups above (stands_on inputs.now) rows.now) }
{
    let mut above = BTreeMap::new(alloc);
    for (place, row) in rows.iter().enumerate() {
        add_row(alloc, &mut above, ports, inputs, &row.name, place)?;
    }
    Ok(above)
}

// Adds the place of a row at the names on which it stands.
fn add_row(
    alloc: Global,
    above: &mut BTreeMap<DevName, Vec<usize>>,
    ports: &RadioPorts,
    inputs: &Inputs,
    upper: &DevName,
    place: usize,
) -> Result<(), Memory>
    requires ports { ArePortsOf inputs.now ports.now }
    requires fresh { AreBelow above.old place }
    ensures { OnOk result (Gains above.old above.new
        (λ q. stands (facts_of inputs.now) q upper.now) place) }
{
    match ports.index.row(inputs, upper) {
        Some(row) => add_by_row(alloc, above, ports, inputs, upper, row, place),
        None => Ok(()),
    }
}

fn add_by_row(
    alloc: Global,
    above: &mut BTreeMap<DevName, Vec<usize>>,
    ports: &RadioPorts,
    inputs: &Inputs,
    upper: &DevName,
    row: &NameRow,
    place: usize,
) -> Result<(), Memory>
    requires ports { ArePortsOf inputs.now ports.now }
    requires fresh { AreBelow above.old place }
    ensures { OnOk result (Gains above.old above.new (λ q. list_any (λ n. bytes_eq n q) (lowers_of
        (standing_of_row row.now (radio_ports_of (facts_of inputs.now) upper.now)))) place) }
{
    if row.broken {
        return Ok(());
    }
    match &row.kind {
        NameKind::Plain => Ok(()),
        NameKind::Bridge { ports: own, .. } => {
            add_ports(alloc, above, own.as_slice(), ports.ports_of(upper), place)
        }
        NameKind::Vlan { lower, .. } => add_under(alloc, above, *lower, place),
    }
}

// Adds a place at the name under a VLAN, where there is one.
fn add_under(
    alloc: Global,
    above: &mut BTreeMap<DevName, Vec<usize>>,
    lower: Option<DevName>,
    place: usize,
) -> Result<(), Memory>
    requires { AreBelow above.old place }
    ensures { OnOk result (Gains above.old above.new (λ q. is_name lower q) place) }
{
    match lower {
        Some(lower) => add_last(alloc, above, &lower, place),
        None => Ok(()),
    }
}

// Adds a place at the own ports of a bridge and at those that join it, once at each.
fn add_ports(
    alloc: Global,
    above: &mut BTreeMap<DevName, Vec<usize>>,
    own: &[DevName],
    joined: &[DevName],
    place: usize,
) -> Result<(), Memory>
    requires { AreBelow above.old place }
    ensures { OnOk result (Gains above.old above.new (λ q. list_any (λ n. bytes_eq n q) own.now
        || list_any (λ n. bytes_eq n q) joined.now) place) }
{
    add_each(alloc, above, own, place)?;
    add_each(alloc, above, joined, place)
}

// Adds a place at names, once at each.
fn add_each(
    alloc: Global,
    above: &mut BTreeMap<DevName, Vec<usize>>,
    names: &[DevName],
    place: usize,
) -> Result<(), Memory>
    ensures { (before : Groups) (at : List ℕ → Bool) → AreBelow before place
        → Gains before above.old at place → OnOk result (Gains before above.new
        (λ q. at q || list_any (λ n. bytes_eq n q) names.now) place) }
{
    for name in names {
        add_last(alloc, above, name, place)?;
    }
    Ok(())
}
