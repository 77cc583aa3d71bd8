ghost use Rattle.std.specs.Prelude.{◌≡◌, map, filter, is_some, IfOk};
ghost use Rattle.std.specs.Option.{option_copied};
ghost use Rattle.std.specs.List.{filter_map};
ghost use Rattle.net_rules.specs.Rows.{interfaces_of, radios_of};
ghost use Rattle.net_rules.specs.Need as need;
ghost use Rattle.net_rules.specs.After as spec;
ghost use Rattle.net_rules.specs.Inputs.{facts_of};
ghost use Rattle.net_view.specs.Places.{HasPlaces, named};

use crate::places::{interface_need_places, radio_need_places};
use crate::same::{same_interface_request, same_radio_request};
use net_rules::{Inputs, InterfaceRequest, OpenInterface, OpenRadio, RadioRequest};
use plane_io::{Items, Memory, Text};
use std::alloc::Global;
use std::collections::BTreeMap;

/// The inputs without the requests of radios that are not these needs.
pub fn radios_dropped(
    alloc: Global,
    inputs: Inputs,
    needs: &[RadioRequest],
) -> Result<Inputs, Memory>
    requires { needs.now ≡ filter_map need.radio_need (radios_of inputs.conf) }
    ensures { IfOk result (λ now. now ≡ spec.radios_dropped inputs) }
{
    let Inputs {
        conf,
        devices,
        operator_states,
        interfaces,
        radios,
        next,
    } = inputs;
    let kept = kept_radios(alloc, needs, radios)?;
    Ok(Inputs {
        conf,
        devices,
        operator_states,
        interfaces,
        radios: kept,
        next,
    })
}

fn kept_radios(
    alloc: Global,
    needs: &[RadioRequest],
    current: Items<OpenRadio>,
) -> Result<Items<OpenRadio>, Memory>
    ensures { IfOk result (λ kept. kept ≡ filter (λ o. spec.is_same_need need.same_radio_request
        (named (λ request. request.name) needs.now o.request.name) o.request) current) }
{
    let places = radio_need_places(alloc, needs)?;
    let mut kept = Items::new(alloc);
    for asked in current.into_vec() {
        if is_need_of_radio(needs, &places, &asked.request) {
            kept.push(asked)?;
        }
    }
    Ok(kept)
}

fn is_need_of_radio(
    needs: &[RadioRequest],
    places: &BTreeMap<Text, usize>,
    request: &RadioRequest,
) -> bool
    requires { HasPlaces places.now (map (λ request. request.name) needs.now) }
    ensures { result ≡ spec.is_same_need need.same_radio_request
        (named (λ request. request.name) needs.now request.now.name) request.now }
{
    match radio_need_named(needs, places, &request.name) {
        Some(need) => same_radio_request(need, request),
        None => false,
    }
}

fn radio_need_named<'a>(
    needs: &'a [RadioRequest],
    places: &BTreeMap<Text, usize>,
    name: &Text,
) -> Option<&'a RadioRequest>
    requires { HasPlaces places.now (map (λ request. request.name) needs.now) }
    ensures { option_copied result ≡ named (λ request. request.name) needs.now name.now }
{
    match places.get(name) {
        Some(place) => needs.get(*place),
        None => None,
    }
}

/// The inputs without the requests of interfaces that are not these needs.
pub fn interfaces_dropped(
    alloc: Global,
    inputs: Inputs,
    needs: &[InterfaceRequest],
) -> Result<Inputs, Memory>
    requires { needs.now
        ≡ filter_map (need.interface_need (facts_of inputs)) (interfaces_of inputs.conf) }
    ensures { IfOk result (λ now. now ≡ spec.interfaces_dropped inputs) }
{
    let Inputs {
        conf,
        devices,
        operator_states,
        interfaces,
        radios,
        next,
    } = inputs;
    let kept = kept_interfaces(alloc, needs, interfaces)?;
    Ok(Inputs {
        conf,
        devices,
        operator_states,
        interfaces: kept,
        radios,
        next,
    })
}

fn kept_interfaces(
    alloc: Global,
    needs: &[InterfaceRequest],
    current: Items<OpenInterface>,
) -> Result<Items<OpenInterface>, Memory>
    ensures { IfOk result (λ kept. kept ≡ filter (λ o. spec.is_same_need need.same_interface_request
        (named (λ request. request.name) needs.now o.request.name) o.request) current) }
{
    let places = interface_need_places(alloc, needs)?;
    let mut kept = Items::new(alloc);
    for asked in current.into_vec() {
        if is_need_of_interface(needs, &places, &asked.request) {
            kept.push(asked)?;
        }
    }
    Ok(kept)
}

fn is_need_of_interface(
    needs: &[InterfaceRequest],
    places: &BTreeMap<Text, usize>,
    request: &InterfaceRequest,
) -> bool
    requires { HasPlaces places.now (map (λ request. request.name) needs.now) }
    ensures { result ≡ spec.is_same_need need.same_interface_request
        (named (λ request. request.name) needs.now request.now.name) request.now }
{
    match interface_need_named(needs, places, &request.name) {
        Some(need) => same_interface_request(need, request),
        None => false,
    }
}

fn interface_need_named<'a>(
    needs: &'a [InterfaceRequest],
    places: &BTreeMap<Text, usize>,
    name: &Text,
) -> Option<&'a InterfaceRequest>
    requires { HasPlaces places.now (map (λ request. request.name) needs.now) }
    ensures { option_copied result ≡ named (λ request. request.name) needs.now name.now }
{
    match places.get(name) {
        Some(place) => needs.get(*place),
        None => None,
    }
}
