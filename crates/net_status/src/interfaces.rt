ghost use Rattle.std.specs.Prelude.{◌≡◌, ◌++◌, ◌∷◌, [], map, Some, None, IfOk, OnOk, if◌then◌else◌};
ghost use Rattle.std.specs.Option.{option_map};
ghost use Rattle.std.specs.Ordering.{nat_cmp};
ghost use Rattle.std.specs.Cmp.Lexicographic.{slice_cmp};
ghost use Rattle.std.specs.BTreeMap.{get};
ghost use Rattle.serde_json.specs.View.{view, members_view};
ghost use Rattle.net_rules.specs.Firsts.{firsts};
ghost use Rattle.net_rules.specs.RadioPorts.{device_of};
ghost use Rattle.net_rules.specs.Interfaces.{has_device};
ghost use Rattle.net_rules.specs.Inputs.{facts_of, open_interface};
ghost use Rattle.net_view.specs.Places.{is_place};
ghost use Rattle.net_view.specs.Levels.{AreLevelsOf};
ghost use Rattle.net_status.specs.Interfaces as spec;
ghost use Rattle.net_status.specs.Members.{with_state, with_addresses, with_protocol};

use crate::faults::fault_items;
use crate::given::{Family, address_list, addresses_of, route_items};
use crate::values::{list, name_or_null, text, truth};
use kern_model::DevName;
use net_rows::InterfaceRow;
use net_rules::{Inputs, OpenInterface};
use net_view::{Levels, is_first, needs_device};
use plane_io::{Memory, Text};
use serde_json::{Map, Value, json, put};
use std::alloc::Global;

/// What is shown of the interface of a name, where there is one.
pub fn interface_status(
    alloc: Global,
    inputs: &Inputs,
    name: &Text,
) -> Result<Option<Value>, Memory>
    ensures { IfOk result (λ shown.
        option_map view shown ≡ spec.interface_status inputs.now name.now) }
{
    let levels = Levels::of(alloc, inputs)?;
    match levels.ports.index.interface(inputs, name) {
        Some(row) => Ok(Some(interface_shown(alloc, &levels, inputs, row)?)),
        None => Ok(None),
    }
}

/// What is shown of all interfaces, in file order.
pub fn dump(alloc: Global, inputs: &Inputs) -> Result<Value, Memory>
    ensures { IfOk result (λ value. view value ≡ spec.dump inputs.now) }
{
    let levels = Levels::of(alloc, inputs)?;
    let items = all_shown(alloc, &levels, inputs, inputs.conf.interfaces.as_slice())?;
    let interfaces = Value::Array(items);
    Ok(json!(in alloc; {"interface": interfaces})?)
}

fn all_shown(
    alloc: Global,
    levels: &Levels,
    inputs: &Inputs,
    interfaces: &[InterfaceRow],
) -> Result<Vec<Value>, Memory>
    requires levels { AreLevelsOf inputs.now levels.now }
    requires interfaces { interfaces.now ≡ inputs.now.conf.interfaces }
    ensures { IfOk result (λ items. map view items.items
        ≡ map (spec.interface_shown inputs.now) (firsts (λ row. row.name) interfaces.now)) }
{
    let mut items = Vec::new(alloc);
    for (place, row) in interfaces.iter().enumerate() {
        add_if_first(alloc, &mut items, levels, inputs, row, place)?;
    }
    Ok(items)
}

fn add_if_first(
    alloc: Global,
    items: &mut Vec<Value>,
    levels: &Levels,
    inputs: &Inputs,
    row: &InterfaceRow,
    place: usize,
) -> Result<(), Memory>
    requires { AreLevelsOf inputs.now levels.now }
    ensures { OnOk result (map view items.new.items ≡ map view items.old.items
        ++ map (spec.interface_shown inputs.now) (if is_place place
        (get (slice_cmp nat_cmp) levels.now.ports.index.interfaces row.now.name)
        then row.now ∷ [] else [])) }
{
    if !is_first(&levels.ports.index.interfaces, &row.name, place) {
        return Ok(());
    }
    items.push(interface_shown(alloc, levels, inputs, row)?)?;
    Ok(())
}

fn interface_shown(
    alloc: Global,
    levels: &Levels,
    inputs: &Inputs,
    row: &InterfaceRow,
) -> Result<Value, Memory>
    requires { AreLevelsOf inputs.now levels.now }
    ensures { IfOk result (λ value. view value ≡ spec.interface_shown inputs.now row.now) }
{
    let mut members = Map::new(alloc);
    add_state(alloc, &mut members, levels, inputs, row)?;
    add_addresses(alloc, &mut members, levels, inputs, row)?;
    add_protocol(alloc, &mut members, levels, inputs, row)?;
    Ok(Value::Object(members))
}

// Adds the members in front of the addresses.
fn add_state(
    alloc: Global,
    members: &mut Map<String, Value>,
    levels: &Levels,
    inputs: &Inputs,
    row: &InterfaceRow,
) -> Result<(), Memory>
    requires { AreLevelsOf inputs.now levels.now }
    ensures { OnOk result (members_view members.new.entries
        ≡ with_state inputs.now row.now (members_view members.old.entries)) }
{
    let autostart = truth(levels.is_enabled(inputs, row));
    put(members, alloc, "autostart", autostart)?;
    let available = truth(has_device(levels, inputs, row));
    put(members, alloc, "available", available)?;
    let device = name_or_null(alloc, levels.device_of(inputs, row))?;
    put(members, alloc, "device", device)?;
    let errors = list(fault_items(alloc, row.faults.as_slice())?);
    put(members, alloc, "errors", errors)?;
    let interface = text(alloc, row.name.as_bytes())?;
    put(members, alloc, "interface", interface)?;
    Ok(())
}

// Adds the addresses and the layer-3 device.
fn add_addresses(
    alloc: Global,
    members: &mut Map<String, Value>,
    levels: &Levels,
    inputs: &Inputs,
    row: &InterfaceRow,
) -> Result<(), Memory>
    requires { AreLevelsOf inputs.now levels.now }
    ensures { OnOk result (members_view members.new.entries
        ≡ with_addresses inputs.now row.now (members_view members.old.entries)) }
{
    let addresses = addresses_of(levels, inputs, row);
    let ipv4 = address_list(alloc, Family::V4, addresses)?;
    put(members, alloc, "ipv4-address", ipv4)?;
    let ipv6 = address_list(alloc, Family::V6, addresses)?;
    put(members, alloc, "ipv6-address", ipv6)?;
    let l3_device = name_or_null(alloc, l3_device_shown(levels, inputs, row))?;
    put(members, alloc, "l3_device", l3_device)?;
    Ok(())
}

// Adds the members behind them.
fn add_protocol(
    alloc: Global,
    members: &mut Map<String, Value>,
    levels: &Levels,
    inputs: &Inputs,
    row: &InterfaceRow,
) -> Result<(), Memory>
    requires { AreLevelsOf inputs.now levels.now }
    ensures { OnOk result (members_view members.new.entries
        ≡ with_protocol inputs.now row.now (members_view members.old.entries)) }
{
    let pending = truth(is_pending(levels, inputs, row));
    put(members, alloc, "pending", pending)?;
    let proto = text(alloc, row.proto.as_bytes())?;
    put(members, alloc, "proto", proto)?;
    let routes = list(route_items(alloc, levels, inputs, row)?);
    put(members, alloc, "route", routes)?;
    put(members, alloc, "up", truth(levels.is_up(inputs, row)))?;
    Ok(())
}

// Whether the device of the interface is available; without any, whether its protocol needs none.
fn has_device(levels: &Levels, inputs: &Inputs, row: &InterfaceRow) -> bool
    requires { AreLevelsOf inputs.now levels.now }
    ensures { result ≡ has_device (facts_of inputs.now) row.now.proto
        (device_of (facts_of inputs.now) row.now) }
{
    match levels.device_of(inputs, row) {
        Some(device) => levels.is_available(inputs, &device),
        None => !needs_device(&row.proto),
    }
}

fn l3_device_shown(levels: &Levels, inputs: &Inputs, row: &InterfaceRow) -> Option<DevName>
    requires { AreLevelsOf inputs.now levels.now }
    ensures { result ≡ spec.l3_device_shown (facts_of inputs.now) row.now }
{
    if levels.is_up(inputs, row) {
        return levels.l3_device_of(inputs, row);
    }
    None
}

// Whether a request is open without an answer that is up.
fn is_pending(levels: &Levels, inputs: &Inputs, row: &InterfaceRow) -> bool
    requires { AreLevelsOf inputs.now levels.now }
    ensures { result
        ≡ spec.is_pending (open_interface inputs.now.interfaces row.now.name) }
{
    match levels.ports.index.interface_request(inputs, &row.name) {
        Some(found) => lacks_up(found),
        None => false,
    }
}

fn lacks_up(found: &OpenInterface) -> bool
    ensures { result ≡ spec.is_pending (Some found.now) }
{
    match &found.answer {
        Some(answer) => !answer.up,
        None => true,
    }
}
