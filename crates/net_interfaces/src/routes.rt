ghost use Rattle.std.specs.Prelude.{◌≡◌, ◌≤◌, ◌++◌, ℕ, List, IfOk, OnOk, codes, option_to_list};
ghost use Rattle.net_rows.specs.Options as by_name;
ghost use Rattle.net_interfaces.specs.Address.{bits_of};
ghost use Rattle.net_interfaces.specs.Names.{HasPlaces};
ghost use Rattle.net_interfaces.specs.Routes as spec;

use crate::address::Family;
use crate::addresses::{alone_v4, stated_mask};
use crate::faults::stated_metric;
use crate::gateways::stated_addr;
use crate::given::{add_if, if_read, is_unread, read_or};
use crate::kinds::{MAIN, MAIN_TABLE, ROUTE, ROUTE6, UNICAST};
use crate::names::{note, place_given};
use crate::network::without_host_bits;
use crate::prefix::read_prefix;
use net_addr::{Addr, Cidr, V4, V6};
use net_rows::{
    FaultName, InterfaceRow, RouteRow, RowFault, Stated, read_decimal, truth_of, value_of,
};
use plane_io::{Items, Memory, Text};
use std::alloc::Global;
use std::collections::BTreeMap;
use uci_tree::{Opt, Section, Value};

/// The rows of all `route` and `route6` sections, in file order, each with its faults. `interfaces`
/// are the rows of the interfaces: a route names the first of them that has the name.
pub fn route_rows(
    alloc: Global,
    interfaces: &[InterfaceRow],
    sections: &[Section],
) -> Result<Items<RouteRow>, Memory>
    ensures { IfOk result (λ rows. rows ≡ spec.route_rows interfaces.now sections.now) }
{
    let places = interface_places(alloc, interfaces)?;
    let mut rows = Items::new(alloc);
    for section in sections {
        add_route(alloc, &mut rows, &places, section)?;
    }
    Ok(rows)
}

// Adds the row of a section, where it is one of a route. `places` has the places of the names of
// the interfaces.
fn add_route(
    alloc: Global,
    rows: &mut Items<RouteRow>,
    places: &BTreeMap<Text, usize>,
    section: &Section,
) -> Result<(), Memory>
    ensures { (names : List (List ℕ)) → HasPlaces places.now names →
        OnOk result (rows.new ≡ rows.old ++ option_to_list (spec.route_in names section.now)) }
{
    let Some(family) = family_of(section) else {
        return Ok(());
    };
    let options = section.options.as_slice();
    let interface = place_given(places, options, b"interface");
    rows.push(route_row(alloc, interface, options, family)?)
}

fn interface_places(
    alloc: Global,
    interfaces: &[InterfaceRow],
) -> Result<BTreeMap<Text, usize>, Memory>
    ensures { IfOk result (λ places. HasPlaces places (spec.names_of interfaces.now)) }
{
    let mut places = BTreeMap::new(alloc);
    for (place, row) in interfaces.iter().enumerate() {
        note(&mut places, &row.name, place)?;
    }
    Ok(places)
}

fn family_of(section: &Section) -> Option<Family>
    ensures { result ≡ spec.family_of section.now }
{
    let kind = section.kind.as_bytes();
    if kind == ROUTE {
        return Some(Family::V4);
    }
    if kind == ROUTE6 {
        return Some(Family::V6);
    }
    None
}

fn route_row(
    alloc: Global,
    interface: Option<usize>,
    options: &[Opt],
    family: Family,
) -> Result<RouteRow, Memory>
    ensures { IfOk result (λ row. row ≡ spec.route_row interface options.now family) }
{
    Ok(RouteRow {
        interface,
        target: target(family, options),
        via: if_read(&stated_addr(family, options, b"gateway")),
        metric: read_or(0, &stated_metric(options)),
        table: read_or(MAIN_TABLE, &stated_table(options)),
        disabled: truth_of(options, b"disabled", false),
        faults: route_faults(alloc, interface, family, options)?,
    })
}

fn route_faults(
    alloc: Global,
    interface: Option<usize>,
    family: Family,
    options: &[Opt],
) -> Result<Items<RowFault>, Memory>
    ensures { IfOk result (λ faults. faults ≡ spec.route_faults interface family options.now) }
{
    let mut faults = Items::new(alloc);
    let is_bad_target = is_unread(&stated_target(family, options)) || has_bad_mask(family, options);
    let gateway = stated_addr(family, options, b"gateway");
    add_if(&mut faults, interface.is_none(), FaultName::NoInterface)?;
    add_if(&mut faults, is_bad_target, FaultName::BadTarget)?;
    add_if(&mut faults, is_unread(&gateway), FaultName::BadGateway)?;
    add_if(
        &mut faults,
        is_unread(&stated_metric(options)),
        FaultName::BadMetric,
    )?;
    add_if(
        &mut faults,
        is_unread(&stated_table(options)),
        FaultName::BadTable,
    )?;
    add_if(&mut faults, is_wrong(options), FaultName::WrongType)?;
    Ok(faults)
}

fn target(family: Family, options: &[Opt]) -> Cidr
    ensures { result ≡ spec.target family options.now }
{
    without_host_bits(read_or(all_of(family), &stated_target(family, options)))
}

fn stated_target(family: Family, options: &[Opt]) -> Stated<Cidr>
    ensures { result ≡ spec.stated_target family options.now }
{
    match value_of(options, b"target") {
        None => Stated::Absent,
        Some(Value::Many(_)) => Stated::Unread,
        Some(Value::One(text)) => {
            match read_prefix(family, alone_length(family, options), text.as_bytes()) {
                Some(cidr) => Stated::Read(cidr),
                None => Stated::Unread,
            }
        }
    }
}

fn alone_length(family: Family, options: &[Opt]) -> u8
    ensures value { result ≡ spec.alone_length family options.now }
    ensures within { result ≤ bits_of family }
{
    match family {
        Family::V4 => alone_v4(options),
        Family::V6 => family.bits(),
    }
}

// All addresses of the family.
fn all_of(family: Family) -> Cidr
    ensures { result ≡ spec.all_of family }
{
    let addr = match family {
        Family::V4 => Addr::V4(V4([0; 4])),
        Family::V6 => Addr::V6(V6([0; 16])),
    };
    Cidr { addr, length: 0 }
}

fn has_bad_mask(family: Family, options: &[Opt]) -> bool
    ensures { result ≡ spec.has_bad_mask family options.now }
{
    match family {
        Family::V4 => is_unread(&stated_mask(options)),
        Family::V6 => false,
    }
}

fn stated_table(options: &[Opt]) -> Stated<u32>
    ensures { result ≡ spec.stated_table options.now }
{
    match value_of(options, b"table") {
        None => Stated::Absent,
        Some(Value::Many(_)) => Stated::Unread,
        Some(Value::One(text)) => match table_of(text.as_bytes()) {
            Some(table) => Stated::Read(table),
            None => Stated::Unread,
        },
    }
}

fn table_of(text: &[u8]) -> Option<u32>
    ensures { result ≡ spec.table_of text.now }
{
    if text == MAIN {
        return Some(MAIN_TABLE);
    }
    read_decimal(text)
}

// Whether `type` is given, and is not `unicast`.
fn is_wrong(options: &[Opt]) -> bool
    ensures { result ≡ spec.is_wrong (by_name.value_of (codes "type") options.now) }
{
    match value_of(options, b"type") {
        None => false,
        Some(Value::Many(_)) => true,
        Some(Value::One(text)) => text.as_bytes() != UNICAST,
    }
}
