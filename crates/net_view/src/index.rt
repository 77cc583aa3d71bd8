ghost use Rattle.std.specs.Prelude.{◌≡◌, map, IfOk};
ghost use Rattle.std.specs.Option.{option_copied};
ghost use Rattle.std.specs.List.{find};
ghost use Rattle.std.specs.Prelude.{bytes_eq};
ghost use Rattle.net_view.specs.Places.{HasPlaces, is_place, place_of, named};
ghost use Rattle.net_view.specs.Index.{IsIndexOf};

use crate::places::{note_name, note_text};
use kern_model::{DevName, Device};
use net_rows::{InterfaceRow, NameRow, RadioRow};
use net_rules::{Inputs, OpenInterface, OpenRadio, OperatorState};
use plane_io::{Memory, Text};
use std::alloc::Global;
use std::collections::BTreeMap;

/// The places of all that inputs have by name; of one name the first.
#[derive(Drop)]
pub struct Index {
    pub names: BTreeMap<DevName, usize>,
    pub devices: BTreeMap<DevName, usize>,
    pub interfaces: BTreeMap<Text, usize>,
    pub radios: BTreeMap<Text, usize>,
    pub operator_states: BTreeMap<Text, usize>,
    pub interface_requests: BTreeMap<Text, usize>,
    pub radio_requests: BTreeMap<Text, usize>,
}

impl Index {
    /// The index of inputs.
    pub fn of(alloc: Global, inputs: &Inputs) -> Result<Index, Memory>
        ensures { IfOk result (λ index. IsIndexOf inputs.now index) }
    {
        Ok(Index {
            names: name_places(alloc, inputs.conf.names.as_slice())?,
            devices: device_places(alloc, inputs.devices.as_slice())?,
            interfaces: interface_places(alloc, inputs.conf.interfaces.as_slice())?,
            radios: radio_places(alloc, inputs.conf.radios.as_slice())?,
            operator_states: operator_state_places(alloc, inputs.operator_states.as_slice())?,
            interface_requests: interface_request_places(alloc, inputs.interfaces.as_slice())?,
            radio_requests: radio_request_places(alloc, inputs.radios.as_slice())?,
        })
    }

    /// The row of a device's name.
    pub fn row<'a>(&self, inputs: &'a Inputs, name: &DevName) -> Option<&'a NameRow>
        requires { IsIndexOf inputs.now self.now }
        ensures { option_copied result ≡ named (λ row. row.name) inputs.now.conf.names name.now }
    {
        match self.names.get(name) {
            Some(place) => inputs.conf.names.as_slice().get(*place),
            None => None,
        }
    }

    /// The present device of a name.
    pub fn device<'a>(&self, inputs: &'a Inputs, name: &DevName) -> Option<&'a (DevName, Device)>
        requires { IsIndexOf inputs.now self.now }
        ensures { option_copied result ≡ named (λ entry. entry.0) inputs.now.devices name.now }
    {
        match self.devices.get(name) {
            Some(place) => inputs.devices.as_slice().get(*place),
            None => None,
        }
    }

    /// The interface of a name.
    pub fn interface<'a>(&self, inputs: &'a Inputs, name: &Text) -> Option<&'a InterfaceRow>
        requires { IsIndexOf inputs.now self.now }
        ensures { option_copied result
            ≡ named (λ row. row.name) inputs.now.conf.interfaces name.now }
    {
        match self.interfaces.get(name) {
            Some(place) => inputs.conf.interfaces.as_slice().get(*place),
            None => None,
        }
    }

    /// The radio of a name.
    pub fn radio<'a>(&self, inputs: &'a Inputs, name: &Text) -> Option<&'a RadioRow>
        requires { IsIndexOf inputs.now self.now }
        ensures { option_copied result ≡ named (λ row. row.name) inputs.now.conf.radios name.now }
    {
        match self.radios.get(name) {
            Some(place) => inputs.conf.radios.as_slice().get(*place),
            None => None,
        }
    }

    /// The last operator state for an interface.
    pub fn operator_state<'a>(&self, inputs: &'a Inputs, name: &Text) -> Option<&'a OperatorState>
        requires { IsIndexOf inputs.now self.now }
        ensures { option_copied result
            ≡ named (λ operator_state. operator_state.interface) inputs.now.operator_states
            name.now }
    {
        match self.operator_states.get(name) {
            Some(place) => inputs.operator_states.as_slice().get(*place),
            None => None,
        }
    }

    /// The open request of an interface.
    pub fn interface_request<'a>(
        &self,
        inputs: &'a Inputs,
        name: &Text,
    ) -> Option<&'a OpenInterface>
        requires { IsIndexOf inputs.now self.now }
        ensures { option_copied result
            ≡ named (λ o. o.request.name) inputs.now.interfaces name.now }
    {
        match self.interface_requests.get(name) {
            Some(place) => inputs.interfaces.as_slice().get(*place),
            None => None,
        }
    }

    /// The open request of a radio.
    pub fn radio_request<'a>(&self, inputs: &'a Inputs, name: &Text) -> Option<&'a OpenRadio>
        requires { IsIndexOf inputs.now self.now }
        ensures { option_copied result ≡ named (λ o. o.request.name) inputs.now.radios name.now }
    {
        match self.radio_requests.get(name) {
            Some(place) => inputs.radios.as_slice().get(*place),
            None => None,
        }
    }
}

fn name_places(alloc: Global, names: &[NameRow]) -> Result<BTreeMap<DevName, usize>, Memory>
    ensures { IfOk result (λ places. HasPlaces places (map (λ row. row.name) names.now)) }
{
    let mut places = BTreeMap::new(alloc);
    for (place, row) in names.iter().enumerate() {
        note_name(&mut places, &row.name, place)?;
    }
    Ok(places)
}

fn device_places(
    alloc: Global,
    devices: &[(DevName, Device)],
) -> Result<BTreeMap<DevName, usize>, Memory>
    ensures { IfOk result (λ places. HasPlaces places (map (λ entry. entry.0) devices.now)) }
{
    let mut places = BTreeMap::new(alloc);
    for (place, entry) in devices.iter().enumerate() {
        note_name(&mut places, &entry.0, place)?;
    }
    Ok(places)
}

/// The places of interfaces by name; of one name the first.
pub fn interface_places(
    alloc: Global,
    interfaces: &[InterfaceRow],
) -> Result<BTreeMap<Text, usize>, Memory>
    ensures { IfOk result (λ places. HasPlaces places (map (λ row. row.name) interfaces.now)) }
{
    let mut places = BTreeMap::new(alloc);
    for (place, row) in interfaces.iter().enumerate() {
        note_text(&mut places, &row.name, place)?;
    }
    Ok(places)
}

fn radio_places(alloc: Global, radios: &[RadioRow]) -> Result<BTreeMap<Text, usize>, Memory>
    ensures { IfOk result (λ places. HasPlaces places (map (λ row. row.name) radios.now)) }
{
    let mut places = BTreeMap::new(alloc);
    for (place, row) in radios.iter().enumerate() {
        note_text(&mut places, &row.name, place)?;
    }
    Ok(places)
}

fn operator_state_places(
    alloc: Global,
    operator_states: &[OperatorState],
) -> Result<BTreeMap<Text, usize>, Memory>
    ensures { IfOk result (λ places. HasPlaces places
        (map (λ operator_state. operator_state.interface) operator_states.now)) }
{
    let mut places = BTreeMap::new(alloc);
    for (place, operator_state) in operator_states.iter().enumerate() {
        note_text(&mut places, &operator_state.interface, place)?;
    }
    Ok(places)
}

fn interface_request_places(
    alloc: Global,
    interface_requests: &[OpenInterface],
) -> Result<BTreeMap<Text, usize>, Memory>
    ensures { IfOk result (λ places. HasPlaces places
        (map (λ o. o.request.name) interface_requests.now)) }
{
    let mut places = BTreeMap::new(alloc);
    for (place, open) in interface_requests.iter().enumerate() {
        note_text(&mut places, &open.request.name, place)?;
    }
    Ok(places)
}

fn radio_request_places(
    alloc: Global,
    radio_requests: &[OpenRadio],
) -> Result<BTreeMap<Text, usize>, Memory>
    ensures { IfOk result (λ places. HasPlaces places
        (map (λ o. o.request.name) radio_requests.now)) }
{
    let mut places = BTreeMap::new(alloc);
    for (place, open) in radio_requests.iter().enumerate() {
        note_text(&mut places, &open.request.name, place)?;
    }
    Ok(places)
}
