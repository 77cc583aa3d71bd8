ghost use Rattle.std.specs.Prelude.{◌≡◌, ◌&&◌, length, filter, map, bytes_eq};
ghost use Rattle.std.specs.BTreeMap.{get};
ghost use Rattle.std.specs.Ordering.{nat_cmp};
ghost use Rattle.std.specs.Cmp.Lexicographic.{slice_cmp};
ghost use Rattle.std.specs.List.{list_any};
ghost use Rattle.net_rules.specs.Firsts.{firsts};
ghost use Rattle.net_rules.specs.RadioPorts.{radio_ports_of};
ghost use Rattle.net_rules.specs.Standing as standing;
ghost use Rattle.net_rules.specs.Used as spec;
ghost use Rattle.net_rules.specs.Inputs.{facts_of};
ghost use Rattle.net_view.specs.Places.{is_place};
ghost use Rattle.net_view.specs.RadioPorts.{ArePortsOf};
ghost use Rattle.net_view.specs.Levels.{AreLevelsOf};
ghost use Rattle.net_wants.specs.View.{IsViewOf};

use crate::view::View;
use kern_model::DevName;
use net_rows::{InterfaceRow, NameKind, NameRow};
use net_rules::Inputs;
use net_view::{Levels, RadioPorts, has_name, is_first, is_name};

impl View {
    /// How many use the name: interfaces, each once, bridges and VLANs. None do where it is not
    /// available.
    pub fn users(&self, inputs: &Inputs, name: &DevName) -> u128
        requires { IsViewOf inputs.now self.now }
        ensures { result ≡ spec.users (facts_of inputs.now) name.now }
    {
        if !self.levels.is_available(inputs, name) {
            return 0;
        }
        let rows = inputs.conf.interfaces.as_slice();
        let interfaces = interfaces_using(&self.levels, inputs, name, rows);
        let uppers = uppers_using(self, inputs, name, inputs.conf.names.as_slice());
        interfaces as u128 + uppers as u128
    }
}

// How many interfaces use the name, each once.
fn interfaces_using(
    levels: &Levels,
    inputs: &Inputs,
    name: &DevName,
    interfaces: &[InterfaceRow],
) -> usize
    requires levels { AreLevelsOf inputs.now levels.now }
    requires interfaces { interfaces.now ≡ inputs.now.conf.interfaces }
    ensures { result ≡ length (filter (spec.uses (facts_of inputs.now) name.now)
        (firsts (λ row. row.name) interfaces.now)) }
{
    let mut count = 0;
    for (place, row) in interfaces.iter().enumerate() {
        if uses_first(levels, inputs, name, row, place) {
            count += 1;
        }
    }
    count
}

fn uses_first(
    levels: &Levels,
    inputs: &Inputs,
    name: &DevName,
    row: &InterfaceRow,
    place: usize,
) -> bool
    requires { AreLevelsOf inputs.now levels.now }
    ensures { result ≡ (is_place place (get (slice_cmp nat_cmp) levels.now.ports.index.interfaces
        row.now.name) && spec.uses (facts_of inputs.now) name.now row.now) }
{
    let is_user = uses(levels, inputs, name, row);
    is_first(&levels.ports.index.interfaces, &row.name, place) & is_user
}

// Whether the interface uses the name.
fn uses(levels: &Levels, inputs: &Inputs, name: &DevName, row: &InterfaceRow) -> bool
    requires { AreLevelsOf inputs.now levels.now }
    ensures { result ≡ spec.uses (facts_of inputs.now) name.now row.now }
{
    let is_device = is_name(&levels.device_of(inputs, row), name);
    let is_l3_device = is_name(&levels.l3_device_of(inputs, row), name);
    (levels.is_claimed(inputs, row) & is_device) | (levels.is_up(inputs, row) & is_l3_device)
}

// How many used bridges and VLANs stand on the name.
fn uppers_using(view: &View, inputs: &Inputs, name: &DevName, names: &[NameRow]) -> usize
    requires { IsViewOf inputs.now view.now }
    ensures { result ≡ length (filter (λ upper. standing.stands (facts_of inputs.now) name.now upper
        && spec.used (facts_of inputs.now) upper) (map (λ row. row.name) names.now)) }
{
    let mut count = 0;
    for row in names {
        if is_upper(view, inputs, name, &row.name) {
            count += 1;
        }
    }
    count
}

fn is_upper(view: &View, inputs: &Inputs, name: &DevName, upper: &DevName) -> bool
    requires { IsViewOf inputs.now view.now }
    ensures { result ≡ (standing.stands (facts_of inputs.now) name.now upper.now
        && spec.used (facts_of inputs.now) upper.now) }
{
    let is_used = view.is_used(inputs, upper);
    stands(&view.levels.ports, inputs, name, upper) & is_used
}

// Whether the one name stands on the other.
fn stands(ports: &RadioPorts, inputs: &Inputs, lower: &DevName, upper: &DevName) -> bool
    requires { ArePortsOf inputs.now ports.now }
    ensures { result ≡ standing.stands (facts_of inputs.now) lower.now upper.now }
{
    match ports.index.row(inputs, upper) {
        Some(row) => stands_by_row(ports, inputs, lower, upper, row),
        None => false,
    }
}

fn stands_by_row(
    ports: &RadioPorts,
    inputs: &Inputs,
    lower: &DevName,
    upper: &DevName,
    row: &NameRow,
) -> bool
    requires { ArePortsOf inputs.now ports.now }
    ensures { result ≡ list_any (λ n. bytes_eq n lower.now) (standing.lowers_of
        (standing.standing_of_row row.now (radio_ports_of (facts_of inputs.now) upper.now))) }
{
    if row.broken {
        return false;
    }
    match &row.kind {
        NameKind::Plain => false,
        NameKind::Bridge { ports: own, .. } => {
            let is_own = has_name(own.as_slice(), lower);
            is_own | has_name(ports.ports_of(upper), lower)
        }
        NameKind::Vlan { lower: own, .. } => is_name(own, lower),
    }
}
