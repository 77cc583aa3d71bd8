ghost use Rattle.std.specs.Prelude.{◌≡◌, map, filter, not, IfOk};
ghost use Rattle.std.specs.List.{list_any};
ghost use Rattle.net_rules.specs.Need as spec;
ghost use Rattle.net_rules.specs.Inputs.{facts_of};
ghost use Rattle.net_view.specs.Levels.{AreLevelsOf};

use crate::order::in_order;
use net_rows::{InterfaceRow, RadioRow, WifiRow};
use net_rules::{Inputs, InterfaceRequest, RadioRequest, WifiRequest};
use net_view::{Levels, asks_nothing};
use plane_io::{Items, Memory};
use std::alloc::Global;

/// What the handler of an interface is to be asked, where it is ready and has one.
pub fn interface_need(
    alloc: Global,
    levels: &Levels,
    inputs: &Inputs,
    row: &InterfaceRow,
) -> Result<Option<InterfaceRequest>, Memory>
    requires { AreLevelsOf inputs.now levels.now }
    ensures { IfOk result (λ need. need ≡ spec.interface_need (facts_of inputs.now) row.now) }
{
    let is_silent = asks_nothing(&row.proto);
    if !(levels.is_ready(inputs, row) & !is_silent) {
        return Ok(None);
    }
    Ok(Some(InterfaceRequest {
        name: row.name.copy()?,
        proto: row.proto.copy()?,
        options: in_order(alloc, row.options.as_slice())?,
        device: levels.device_of(inputs, row),
    }))
}

/// What the handler of a radio is to be asked, where a row of it is enabled.
pub fn radio_need(alloc: Global, radio: &RadioRow) -> Result<Option<RadioRequest>, Memory>
    ensures { IfOk result (λ need. need ≡ spec.radio_need radio.now) }
{
    let has_row = has_enabled_row(radio.rows.as_slice());
    if !(!radio.disabled & has_row) {
        return Ok(None);
    }
    Ok(Some(RadioRequest {
        name: radio.name.copy()?,
        options: in_order(alloc, radio.options.as_slice())?,
        rows: wifi_requests(alloc, radio.rows.as_slice())?,
    }))
}

fn has_enabled_row(rows: &[WifiRow]) -> bool
    ensures { result ≡ list_any (λ row. not row.disabled) rows.now }
{
    rows.iter().any(|row| !row.disabled)
}

fn wifi_requests(alloc: Global, rows: &[WifiRow]) -> Result<Items<WifiRequest>, Memory>
    ensures { IfOk result (λ requests. requests
        ≡ map spec.wifi_request (filter (λ row. not row.disabled) rows.now)) }
{
    let mut requests = Items::new(alloc);
    for row in rows {
        if !row.disabled {
            let options = in_order(alloc, row.options.as_slice())?;
            requests.push(WifiRequest { options })?;
        }
    }
    Ok(requests)
}
