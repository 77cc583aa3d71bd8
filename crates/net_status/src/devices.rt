ghost use Rattle.std.specs.Prelude.{◌≡◌, ◌+◌, ◌++◌, ◌∷◌, [], length, map, filter, not};
ghost use Rattle.std.specs.Prelude.{if◌then◌else◌, IfOk, OnOk};
ghost use Rattle.std.specs.List.{flat_map};
ghost use Rattle.std.specs.Option.{option_map};
ghost use Rattle.serde_json.specs.View.{view};
ghost use Rattle.net_rules.specs.Rows.{row_at, kind_at, rowless_kind, is_name};
ghost use Rattle.net_rules.specs.Used.{users};
ghost use Rattle.net_rules.specs.Inputs.{facts_of};
ghost use Rattle.net_view.specs.Index.{IsIndexOf};
ghost use Rattle.net_wants.specs.View.{IsViewOf};
ghost use Rattle.net_status.specs.Faults.{fault_item, taken_item};
ghost use Rattle.net_status.specs.Devices as spec;

use crate::faults::{add_faults, fault_item};
use crate::values::{list, text, truth};
use kern_model::DevName;
use net_rows::{FaultName, InterfaceRow, NameKind, NameRow, RowFault, VlanRow, vlan_parts};
use net_rules::Inputs;
use net_view::{Index, is_plain};
use net_wants::View;
use plane_io::Memory;
use serde_json::{Map, Value, put};
use std::alloc::Global;

/// What is shown of the device of a name, where it is present or has a row.
pub fn device_status(
    alloc: Global,
    inputs: &Inputs,
    name: &DevName,
) -> Result<Option<Value>, Memory>
    ensures { IfOk result (λ shown.
        option_map view shown ≡ spec.device_status inputs.now name.now) }
{
    let seen = View::of(alloc, inputs)?;
    if !is_shown(&seen.levels.ports.index, inputs, name) {
        return Ok(None);
    }
    Ok(Some(device_shown(alloc, &seen, inputs, name)?))
}

fn is_shown(index: &Index, inputs: &Inputs, name: &DevName) -> bool
    requires { IsIndexOf inputs.now index.now }
    ensures { result ≡ spec.is_shown (facts_of inputs.now) name.now }
{
    let has_row = has_row(index, inputs, name);
    index.device(inputs, name).is_some() | has_row
}

fn device_shown(
    alloc: Global,
    seen: &View,
    inputs: &Inputs,
    name: &DevName,
) -> Result<Value, Memory>
    requires { IsViewOf inputs.now seen.now }
    ensures { IfOk result (λ value.
        view value ≡ spec.device_shown (facts_of inputs.now) name.now) }
{
    let mut members = Map::new(alloc);
    let available = truth(seen.levels.is_available(inputs, name));
    put(&mut members, alloc, "available", available)?;
    let carrier = truth(seen.levels.has_link(inputs, name));
    put(&mut members, alloc, "carrier", carrier)?;
    let index = &seen.levels.ports.index;
    let errors = list(device_errors(alloc, index, inputs, name)?);
    put(&mut members, alloc, "errors", errors)?;
    let title = text(alloc, name.text())?;
    put(&mut members, alloc, "name", title)?;
    let kind = text(alloc, kind_word(index, inputs, name))?;
    put(&mut members, alloc, "type", kind)?;
    put(&mut members, alloc, "up", truth(seen.is_used(inputs, name)))?;
    let users = Value::from(user_count(seen, inputs, name));
    put(&mut members, alloc, "users", users)?;
    Ok(Value::Object(members))
}

// No more interfaces and names can use one.
fn most_users(interfaces: &[InterfaceRow], names: &[NameRow]) -> u64
    ensures { result ≡ length interfaces.now + length names.now }
{
    interfaces.len() as u64 + names.len() as u64
}

fn user_count(seen: &View, inputs: &Inputs, name: &DevName) -> u64
    requires { IsViewOf inputs.now seen.now }
    ensures { result ≡ users (facts_of inputs.now) name.now }
{
    let _most = most_users(
        inputs.conf.interfaces.as_slice(),
        inputs.conf.names.as_slice(),
    );
    seen.users(inputs, name) as u64
}

fn kind_word(index: &Index, inputs: &Inputs, name: &DevName) -> &'static [u8]
    requires { IsIndexOf inputs.now index.now }
    ensures { result.now ≡ spec.kind_word (kind_at inputs.now.conf name.now) }
{
    match index.row(inputs, name) {
        Some(row) => word_of(&row.kind),
        None => word_without_row(name),
    }
}

fn word_without_row(name: &DevName) -> &'static [u8]
    ensures { result.now ≡ spec.kind_word (rowless_kind name.now) }
{
    if vlan_parts(name).is_some() {
        return b"8021q";
    }
    b"Network device"
}

fn word_of(kind: &NameKind) -> &'static [u8]
    ensures { result.now ≡ spec.kind_word kind.now }
{
    match kind {
        NameKind::Plain => b"Network device",
        NameKind::Bridge { .. } => b"bridge",
        NameKind::Vlan { .. } => b"8021q",
    }
}

fn device_errors(
    alloc: Global,
    index: &Index,
    inputs: &Inputs,
    name: &DevName,
) -> Result<Vec<Value>, Memory>
    requires { IsIndexOf inputs.now index.now }
    ensures { IfOk result (λ items. map view items.items
        ≡ spec.device_errors (facts_of inputs.now) name.now) }
{
    let mut items = device_faults(alloc, index, inputs, name)?;
    if has_row(index, inputs, name) {
        add_vlan_faults(alloc, &mut items, inputs.conf.vlans.as_slice(), name)?;
    }
    Ok(items)
}

fn has_row(index: &Index, inputs: &Inputs, name: &DevName) -> bool
    requires { IsIndexOf inputs.now index.now }
    ensures { result ≡ spec.has_row inputs.now.conf.names name.now }
{
    index.row(inputs, name).is_some()
}

// Adds the faults of the VLAN rows that name the device, in file order.
fn add_vlan_faults(
    alloc: Global,
    items: &mut Vec<Value>,
    vlans: &[VlanRow],
    name: &DevName,
) -> Result<(), Memory>
    ensures { OnOk result (map view items.new.items ≡ map view items.old.items
        ++ map fault_item (flat_map (spec.faults_on name.now) vlans.now)) }
{
    for row in vlans {
        add_faults_on(alloc, items, row, name)?;
    }
    Ok(())
}

fn add_faults_on(
    alloc: Global,
    items: &mut Vec<Value>,
    row: &VlanRow,
    name: &DevName,
) -> Result<(), Memory>
    ensures { OnOk result (map view items.new.items ≡ map view items.old.items
        ++ map fault_item (spec.faults_on name.now row.now)) }
{
    if !is_on(&row.bridge, name) {
        return Ok(());
    }
    add_faults(alloc, items, row.faults.as_slice())
}

fn is_on(bridge: &Option<DevName>, name: &DevName) -> bool
    ensures { result ≡ is_name bridge.now name.now }
{
    match bridge {
        Some(bridge) => bridge == name,
        None => false,
    }
}

fn device_faults(
    alloc: Global,
    index: &Index,
    inputs: &Inputs,
    name: &DevName,
) -> Result<Vec<Value>, Memory>
    requires { IsIndexOf inputs.now index.now }
    ensures { IfOk result (λ items. map view items.items ≡ spec.device_faults
        (facts_of inputs.now) name.now (row_at inputs.now.conf.names name.now).faults) }
{
    let faults = faults_at(index, inputs, name);
    let mut items = Vec::new(alloc);
    add_stated_faults(alloc, &mut items, faults)?;
    add_taken(alloc, &mut items, is_taken(index, inputs, name))?;
    add_value_faults(alloc, &mut items, faults)?;
    Ok(items)
}

fn add_taken(alloc: Global, items: &mut Vec<Value>, is_taken: bool) -> Result<(), Memory>
    ensures { OnOk result (map view items.new.items ≡ map view items.old.items
        ++ (if is_taken then taken_item ∷ [] else [])) }
{
    if is_taken {
        items.push(text(alloc, b"NameTaken")?)?;
    }
    Ok(())
}

fn faults_at<'a>(index: &Index, inputs: &'a Inputs, name: &DevName) -> &'a [RowFault]
    requires { IsIndexOf inputs.now index.now }
    ensures { result.now ≡ (row_at inputs.now.conf.names name.now).faults }
{
    match index.row(inputs, name) {
        Some(row) => row.faults.as_slice(),
        None => &[],
    }
}

fn is_taken(index: &Index, inputs: &Inputs, name: &DevName) -> bool
    requires { IsIndexOf inputs.now index.now }
    ensures { result ≡ spec.is_taken (facts_of inputs.now) name.now }
{
    let is_present = index.device(inputs, name).is_some();
    !is_plain(index, inputs, name) & is_present
}

// Adds the faults that are not of an option that is passed over.
fn add_stated_faults(
    alloc: Global,
    items: &mut Vec<Value>,
    faults: &[RowFault],
) -> Result<(), Memory>
    ensures { OnOk result (map view items.new.items ≡ map view items.old.items
        ++ map fault_item (filter (λ found. not (spec.is_of_value found.name)) faults.now)) }
{
    for fault in faults {
        if !is_of_value(fault.name) {
            items.push(fault_item(alloc, fault)?)?;
        }
    }
    Ok(())
}

// Adds those that are.
fn add_value_faults(
    alloc: Global,
    items: &mut Vec<Value>,
    faults: &[RowFault],
) -> Result<(), Memory>
    ensures { OnOk result (map view items.new.items ≡ map view items.old.items
        ++ map fault_item (filter (λ found. spec.is_of_value found.name) faults.now)) }
{
    for fault in faults {
        if is_of_value(fault.name) {
            items.push(fault_item(alloc, fault)?)?;
        }
    }
    Ok(())
}

fn is_of_value(name: FaultName) -> bool
    ensures { result ≡ spec.is_of_value name }
{
    match name {
        FaultName::BadMtu => true,
        FaultName::BadMac => true,
        _ => false,
    }
}
