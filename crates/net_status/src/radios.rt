ghost use Rattle.std.specs.Prelude.{◌≡◌, map, is_some, IfOk};
ghost use Rattle.std.specs.Option.{option_map, option_copied};
ghost use Rattle.serde_json.specs.View.{view};
ghost use Rattle.net_view.specs.Index.{IsIndexOf};
ghost use Rattle.net_status.specs.Values.{text_or_null};
ghost use Rattle.net_status.specs.Radios as spec;

use crate::faults::fault_items;
use crate::values::{list, name_or_null, text, truth};
use kern_model::DevName;
use net_rows::RadioRow;
use net_rules::{Inputs, OpenRadio};
use net_view::Index;
use plane_io::{Items, Memory, Text};
use serde_json::{Map, Value, put};
use std::alloc::Global;

/// What is shown of the radio of a name, where there is one.
pub fn radio_status(alloc: Global, inputs: &Inputs, name: &Text) -> Result<Option<Value>, Memory>
    ensures { IfOk result (λ shown. option_map view shown ≡ spec.radio_status inputs.now name.now) }
{
    let index = Index::of(alloc, inputs)?;
    match index.radio(inputs, name) {
        Some(row) => Ok(Some(radio_shown(alloc, &index, inputs, row)?)),
        None => Ok(None),
    }
}

fn radio_shown(
    alloc: Global,
    index: &Index,
    inputs: &Inputs,
    row: &RadioRow,
) -> Result<Value, Memory>
    requires { IsIndexOf inputs.now index.now }
    ensures { IfOk result (λ value. view value ≡ spec.radio_shown inputs.now row.now) }
{
    shown(alloc, row, index.radio_request(inputs, &row.name))
}

fn shown(alloc: Global, row: &RadioRow, asked: Option<&OpenRadio>) -> Result<Value, Memory>
    ensures { IfOk result (λ value.
        view value ≡ spec.shown_with (option_copied asked.entry) row.now) }
{
    let mut members = Map::new(alloc);
    let errors = list(fault_items(alloc, row.faults.as_slice())?);
    put(&mut members, alloc, "errors", errors)?;
    let name = text(alloc, row.name.as_bytes())?;
    put(&mut members, alloc, "name", name)?;
    put(&mut members, alloc, "pending", truth(is_waiting(asked)))?;
    let ports = list(port_items(alloc, asked)?);
    put(&mut members, alloc, "ports", ports)?;
    put(&mut members, alloc, "up", truth(is_answered(asked)))?;
    Ok(Value::Object(members))
}

// Whether a request is open without an answer.
fn is_waiting(asked: Option<&OpenRadio>) -> bool
    ensures { result ≡ spec.is_waiting (option_copied asked.entry) }
{
    match asked {
        Some(found) => found.ports.is_none(),
        None => false,
    }
}

fn is_answered(asked: Option<&OpenRadio>) -> bool
    ensures { result ≡ is_some (spec.ports_told (option_copied asked.entry)) }
{
    match asked {
        Some(found) => found.ports.is_some(),
        None => false,
    }
}

// The ports of the answer to the open request.
fn port_items(alloc: Global, asked: Option<&OpenRadio>) -> Result<Vec<Value>, Memory>
    ensures { IfOk result (λ items. map view items.items
        ≡ spec.port_items (spec.ports_told (option_copied asked.entry))) }
{
    match asked {
        Some(found) => told_items(alloc, &found.ports),
        None => Ok(Vec::new(alloc)),
    }
}

fn told_items(alloc: Global, told: &Option<Items<Option<DevName>>>) -> Result<Vec<Value>, Memory>
    ensures { IfOk result (λ items. map view items.items ≡ spec.port_items told.now) }
{
    match told {
        Some(ports) => name_items(alloc, ports.as_slice()),
        None => Ok(Vec::new(alloc)),
    }
}

fn name_items(alloc: Global, ports: &[Option<DevName>]) -> Result<Vec<Value>, Memory>
    ensures { IfOk result (λ items. map view items.items ≡ map text_or_null ports.now) }
{
    let mut items = Vec::new(alloc);
    for port in ports {
        items.push(name_or_null(alloc, *port)?)?;
    }
    Ok(items)
}
