ghost use Rattle.std.specs.Prelude.{◌≡◌, map, filter, IfOk};
ghost use Rattle.std.specs.Option.{option_map};
ghost use Rattle.serde_json.specs.View.{view};
ghost use Rattle.net_addr.specs.Printed.{addr_text};
ghost use Rattle.net_rules.specs.Want.{everything};
ghost use Rattle.net_rules.specs.Inputs.{facts_of};
ghost use Rattle.net_view.specs.Levels.{AreLevelsOf};
ghost use Rattle.net_status.specs.Values.{text_or_null};
ghost use Rattle.net_status.specs.Given as spec;

use crate::values::address_text;
use net_addr::{Addr, Cidr, V4, V6};
use net_rows::InterfaceRow;
use net_rules::{AnswerRoute, Inputs};
use net_view::{Levels, is_static};
use plane_io::Memory;
use serde_json::{Map, Value, json, put};
use std::alloc::Global;

/// The two kinds of addresses.
#[derive(Clone, Copy)]
pub enum Family {
    V4,
    V6,
}

/// The addresses of an interface, where it is up.
pub fn addresses_of<'a>(levels: &Levels, inputs: &'a Inputs, row: &'a InterfaceRow) -> &'a [Cidr]
    requires { AreLevelsOf inputs.now levels.now }
    ensures { result.now ≡ spec.addresses_of (facts_of inputs.now) row.now }
{
    if !levels.is_up(inputs, row) {
        return &[];
    }
    if is_static(&row.proto) {
        return row.addresses.as_slice();
    }
    match levels.answer_of(inputs, row) {
        Some(answer) => answer.addresses.as_slice(),
        None => &[],
    }
}

/// The addresses of that family.
pub fn address_list(alloc: Global, family: Family, addresses: &[Cidr]) -> Result<Value, Memory>
    ensures { IfOk result (λ value. view value ≡ spec.address_list family addresses.now) }
{
    let mut items = Vec::new(alloc);
    for cidr in addresses {
        if is_of_family(family, cidr.addr) {
            items.push(address_item(alloc, cidr)?)?;
        }
    }
    Ok(Value::Array(items))
}

fn is_of_family(family: Family, address: Addr) -> bool
    ensures { result ≡ spec.is_of_family family address }
{
    match family {
        Family::V4 => match address {
            Addr::V4(_) => true,
            Addr::V6(_) => false,
        },
        Family::V6 => match address {
            Addr::V4(_) => false,
            Addr::V6(_) => true,
        },
    }
}

fn address_item(alloc: Global, cidr: &Cidr) -> Result<Value, Memory>
    ensures { IfOk result (λ value. view value ≡ spec.address_item cidr.now) }
{
    let address = address_text(alloc, cidr.addr)?;
    let mask = cidr.length;
    Ok(json!(in alloc; {"address": address, "mask": mask})?)
}

/// The routes of an interface, where it is up.
pub fn route_items(
    alloc: Global,
    levels: &Levels,
    inputs: &Inputs,
    row: &InterfaceRow,
) -> Result<Vec<Value>, Memory>
    requires { AreLevelsOf inputs.now levels.now }
    ensures { IfOk result (λ items. map view items.items
        ≡ map spec.route_item (spec.routes_of (facts_of inputs.now) row.now)) }
{
    if !levels.is_up(inputs, row) {
        return Ok(Vec::new(alloc));
    }
    if is_static(&row.proto) {
        return gateway_items(alloc, row.metric, row.gateways.as_slice());
    }
    match levels.answer_of(inputs, row) {
        Some(answer) => told_items(alloc, answer.routes.as_slice()),
        None => Ok(Vec::new(alloc)),
    }
}

fn gateway_items(alloc: Global, metric: u32, gateways: &[Addr]) -> Result<Vec<Value>, Memory>
    ensures { IfOk result (λ items. map view items.items
        ≡ map spec.route_item (map (spec.gateway_route metric) gateways.now)) }
{
    let mut items = Vec::new(alloc);
    for gateway in gateways {
        let route = gateway_route(metric, *gateway);
        items.push(route_item(alloc, &route)?)?;
    }
    Ok(items)
}

// A route to everything by a gateway.
fn gateway_route(metric: u32, gateway: Addr) -> AnswerRoute
    ensures { result ≡ spec.gateway_route metric gateway }
{
    AnswerRoute {
        target: everything(gateway),
        via: Some(gateway),
        metric,
    }
}

fn everything(family: Addr) -> Cidr
    ensures { result ≡ everything family }
{
    match family {
        Addr::V4(_) => Cidr {
            addr: Addr::V4(V4([0; 4])),
            length: 0,
        },
        Addr::V6(_) => Cidr {
            addr: Addr::V6(V6([0; 16])),
            length: 0,
        },
    }
}

fn told_items(alloc: Global, routes: &[AnswerRoute]) -> Result<Vec<Value>, Memory>
    ensures { IfOk result (λ items. map view items.items ≡ map spec.route_item routes.now) }
{
    let mut items = Vec::new(alloc);
    for route in routes {
        items.push(route_item(alloc, route)?)?;
    }
    Ok(items)
}

fn route_item(alloc: Global, route: &AnswerRoute) -> Result<Value, Memory>
    ensures { IfOk result (λ value. view value ≡ spec.route_item route.now) }
{
    let mut members = Map::new(alloc);
    put(
        &mut members,
        alloc,
        "mask",
        Value::from(route.target.length),
    )?;
    put(&mut members, alloc, "metric", Value::from(route.metric))?;
    let nexthop = next_hop(alloc, route.via)?;
    put(&mut members, alloc, "nexthop", nexthop)?;
    let target = address_text(alloc, route.target.addr)?;
    put(&mut members, alloc, "target", target)?;
    Ok(Value::Object(members))
}

fn next_hop(alloc: Global, via: Option<Addr>) -> Result<Value, Memory>
    ensures { IfOk result (λ value. view value ≡ text_or_null (option_map addr_text via)) }
{
    match via {
        Some(gateway) => address_text(alloc, gateway),
        None => Ok(Value::Null),
    }
}
