ghost use Rattle.std.specs.Prelude.{◌≡◌, ◌+◌, ◌++◌, ◌^◌, ◌<◌, ◌≤◌, map, length, filter, is_none};
ghost use Rattle.std.specs.Prelude.{IfOk};
ghost use Rattle.std.specs.List.{filter_map};
ghost use Rattle.net_rules.specs.Rows.{interfaces_of, radios_of};
ghost use Rattle.net_rules.specs.Need as need;
ghost use Rattle.net_rules.specs.After as spec;
ghost use Rattle.net_rules.specs.Inputs.{facts_of, open_interface, open_radio};
ghost use Rattle.net_rules.specs.Numbers.{AreCountable};
ghost use Rattle.net_view.specs.Places.{HasPlaces};

use crate::places::{open_interface_places, open_radio_places};
use net_rules::{Inputs, InterfaceRequest, OpenInterface, OpenRadio, RadioRequest};
use plane_io::{Items, Memory, Text};
use std::alloc::Global;
use std::collections::BTreeMap;

/// The inputs where each of these needs has a request: one that had none gets the next number,
/// interfaces first.
pub fn requests_opened(
    alloc: Global,
    inputs: Inputs,
    interface_needs: Items<InterfaceRequest>,
    radio_needs: Items<RadioRequest>,
) -> Result<Inputs, Memory>
    requires countable { AreCountable inputs }
    requires interfaces { interface_needs
        ≡ filter_map (need.interface_need (facts_of inputs)) (interfaces_of inputs.conf) }
    requires radios { radio_needs ≡ filter_map need.radio_need (radios_of inputs.conf) }
    ensures { IfOk result (λ now. now ≡ spec.requests_opened inputs) }
{
    let Inputs {
        conf,
        devices,
        operator_states,
        interfaces,
        radios,
        next,
    } = inputs;
    let new_interfaces = interfaces_without_request(alloc, interface_needs, interfaces.as_slice())?;
    let new_radios = radios_without_request(alloc, radio_needs, radios.as_slice())?;
    let middle = next + new_interfaces.as_slice().len() as u64;
    let end = middle + new_radios.as_slice().len() as u64;
    Ok(Inputs {
        conf,
        devices,
        operator_states,
        interfaces: with_interfaces(interfaces, next, new_interfaces)?,
        radios: with_radios(radios, middle, new_radios)?,
        next: end,
    })
}

fn interfaces_without_request(
    alloc: Global,
    needs: Items<InterfaceRequest>,
    current: &[OpenInterface],
) -> Result<Items<InterfaceRequest>, Memory>
    ensures { IfOk result (λ requests. requests
        ≡ filter (λ request. is_none (open_interface current.now request.name)) needs) }
{
    let places = open_interface_places(alloc, current)?;
    let mut requests = Items::new(alloc);
    for request in needs.into_vec() {
        if lacks_interface_request(current, &places, &request.name) {
            requests.push(request)?;
        }
    }
    Ok(requests)
}

fn lacks_interface_request(
    current: &[OpenInterface],
    places: &BTreeMap<Text, usize>,
    name: &Text,
) -> bool
    requires { HasPlaces places.now (map (λ o. o.request.name) current.now) }
    ensures { result ≡ is_none (open_interface current.now name.now) }
{
    !places.contains_key(name)
}

fn radios_without_request(
    alloc: Global,
    needs: Items<RadioRequest>,
    current: &[OpenRadio],
) -> Result<Items<RadioRequest>, Memory>
    ensures { IfOk result (λ requests. requests
        ≡ filter (λ request. is_none (open_radio current.now request.name)) needs) }
{
    let places = open_radio_places(alloc, current)?;
    let mut requests = Items::new(alloc);
    for request in needs.into_vec() {
        if lacks_radio_request(current, &places, &request.name) {
            requests.push(request)?;
        }
    }
    Ok(requests)
}

fn lacks_radio_request(current: &[OpenRadio], places: &BTreeMap<Text, usize>, name: &Text) -> bool
    requires { HasPlaces places.now (map (λ o. o.request.name) current.now) }
    ensures { result ≡ is_none (open_radio current.now name.now) }
{
    !places.contains_key(name)
}

// The open requests and these with rising numbers.
fn with_interfaces(
    current: Items<OpenInterface>,
    next: u64,
    requests: Items<InterfaceRequest>,
) -> Result<Items<OpenInterface>, Memory>
    requires { next + length requests < 2 ^ 64 }
    ensures { IfOk result (λ now. now ≡ current ++ spec.opened_interfaces next requests) }
{
    let mut now = current;
    let mut number = next;
    for request in requests.into_vec() {
        now.push(OpenInterface {
            number,
            request,
            answer: None,
        })?;
        number += 1;
    }
    Ok(now)
}

// The open requests and these with rising numbers.
fn with_radios(
    current: Items<OpenRadio>,
    next: u64,
    requests: Items<RadioRequest>,
) -> Result<Items<OpenRadio>, Memory>
    requires { next + length requests < 2 ^ 64 }
    ensures { IfOk result (λ now. now ≡ current ++ spec.opened_radios next requests) }
{
    let mut now = current;
    let mut number = next;
    for request in requests.into_vec() {
        now.push(OpenRadio {
            number,
            request,
            ports: None,
        })?;
        number += 1;
    }
    Ok(now)
}
