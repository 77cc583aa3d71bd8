ghost use Rattle.std.specs.Prelude.{◌≡◌, map, is_some, IfOk};
ghost use Rattle.net_rules.specs.Rows.{interface_named};
ghost use Rattle.net_rules.specs.After as spec;
ghost use Rattle.net_view.specs.Places.{HasPlaces};

use kern_model::{DevEvent, DevName, Device};
use net_copies::{copy_answer, copy_items};
use net_rows::Conf;
use net_rules::{Answer, Event, Inputs, OpenInterface, OpenRadio, OperatorState};
use net_view::interface_places;
use plane_io::{Items, Memory, Text};
use std::alloc::Global;
use std::collections::BTreeMap;

/// The inputs with the one field changed that the event names: the first step after an event.
pub fn changed(alloc: Global, inputs: Inputs, event: Event) -> Result<Inputs, Memory>
    ensures { IfOk result (λ now. now ≡ spec.changed inputs event) }
{
    match event {
        Event::Load(conf) => loaded(alloc, inputs, conf),
        Event::Device(what) => with_devices(alloc, inputs, what),
        Event::Operator { interface, up } => commanded(alloc, inputs, interface, up),
        Event::Answer {
            interface,
            number,
            answer,
        } => answered(alloc, inputs, &interface, number, &answer),
        Event::Radio {
            radio,
            number,
            ports,
        } => radio_answered(alloc, inputs, &radio, number, ports.as_slice()),
    }
}

fn loaded(alloc: Global, inputs: Inputs, conf: Conf) -> Result<Inputs, Memory>
    ensures { IfOk result (λ now. now
        ≡ record inputs {
          conf = conf;
          operator_states =
              spec.kept_operator_states conf inputs.operator_states;
        }) }
{
    let places = interface_places(alloc, conf.interfaces.as_slice())?;
    let Inputs {
        devices,
        operator_states,
        interfaces,
        radios,
        next,
        ..
    } = inputs;
    let operator_states = kept_operator_states(alloc, &conf, &places, operator_states)?;
    Ok(Inputs {
        conf,
        devices,
        operator_states,
        interfaces,
        radios,
        next,
    })
}

// The operator states for interfaces that there are.
fn kept_operator_states(
    alloc: Global,
    conf: &Conf,
    places: &BTreeMap<Text, usize>,
    operator_states: Items<OperatorState>,
) -> Result<Items<OperatorState>, Memory>
    requires { HasPlaces places.now (map (λ row. row.name) conf.now.interfaces) }
    ensures { IfOk result (λ kept. kept ≡ spec.kept_operator_states conf.now operator_states) }
{
    let mut kept = Items::new(alloc);
    for operator_state in operator_states.into_vec() {
        if has_interface(conf, places, &operator_state.interface) {
            kept.push(operator_state)?;
        }
    }
    Ok(kept)
}

fn has_interface(conf: &Conf, places: &BTreeMap<Text, usize>, interface: &Text) -> bool
    requires { HasPlaces places.now (map (λ row. row.name) conf.now.interfaces) }
    ensures { result ≡ is_some (interface_named conf.now interface.now) }
{
    places.contains_key(interface)
}

fn with_devices(alloc: Global, inputs: Inputs, what: DevEvent) -> Result<Inputs, Memory>
    ensures { IfOk result (λ now. now
        ≡ record inputs { devices = spec.devices_after inputs.devices what }) }
{
    let Inputs {
        conf,
        devices,
        operator_states,
        interfaces,
        radios,
        next,
    } = inputs;
    let devices = devices_after(alloc, devices, what)?;
    Ok(Inputs {
        conf,
        devices,
        operator_states,
        interfaces,
        radios,
        next,
    })
}

fn devices_after(
    alloc: Global,
    devices: Items<(DevName, Device)>,
    what: DevEvent,
) -> Result<Items<(DevName, Device)>, Memory>
    ensures { IfOk result (λ now. now ≡ spec.devices_after devices what) }
{
    match what {
        DevEvent::Add {
            name,
            carrier,
            mtu,
            mac,
        } => {
            let mut others = without_device(alloc, &name, devices.as_slice())?;
            others.push((name, Device { carrier, mtu, mac }))?;
            Ok(others)
        }
        DevEvent::Remove { name } => without_device(alloc, &name, devices.as_slice()),
        DevEvent::Carrier { name, on } => carrier_set(alloc, &name, on, devices.as_slice()),
    }
}

fn without_device(
    alloc: Global,
    name: &DevName,
    devices: &[(DevName, Device)],
) -> Result<Items<(DevName, Device)>, Memory>
    ensures { IfOk result (λ others. others ≡ spec.without_device name.now devices.now) }
{
    let mut others = Items::new(alloc);
    for entry in devices {
        if entry.0.text() != name.text() {
            others.push(*entry)?;
        }
    }
    Ok(others)
}

fn carrier_set(
    alloc: Global,
    name: &DevName,
    on: bool,
    devices: &[(DevName, Device)],
) -> Result<Items<(DevName, Device)>, Memory>
    ensures { IfOk result (λ now. now ≡ map (spec.carrier_set name.now on) devices.now) }
{
    let mut now = Items::new(alloc);
    for entry in devices {
        now.push(with_carrier(name, on, entry))?;
    }
    Ok(now)
}

fn with_carrier(name: &DevName, on: bool, entry: &(DevName, Device)) -> (DevName, Device)
    ensures { result ≡ spec.carrier_set name.now on entry.now }
{
    if entry.0.text() == name.text() {
        let device = Device {
            carrier: on,
            mtu: entry.1.mtu,
            mac: entry.1.mac,
        };
        return (entry.0, device);
    }
    *entry
}

fn commanded(alloc: Global, inputs: Inputs, interface: Text, up: bool) -> Result<Inputs, Memory>
    ensures { IfOk result (λ now. now
        ≡ record inputs {
          operator_states =
              spec.operator_states_after inputs.operator_states interface up;
        }) }
{
    let Inputs {
        conf,
        devices,
        operator_states,
        interfaces,
        radios,
        next,
    } = inputs;
    let operator_states = operator_states_after(alloc, operator_states, interface, up)?;
    Ok(Inputs {
        conf,
        devices,
        operator_states,
        interfaces,
        radios,
        next,
    })
}

fn operator_states_after(
    alloc: Global,
    operator_states: Items<OperatorState>,
    interface: Text,
    up: bool,
) -> Result<Items<OperatorState>, Memory>
    ensures { IfOk result (λ now. now ≡ spec.operator_states_after operator_states interface up) }
{
    let mut now = Items::new(alloc);
    for operator_state in operator_states.into_vec() {
        if operator_state.interface.as_bytes() != interface.as_bytes() {
            now.push(operator_state)?;
        }
    }
    now.push(OperatorState { interface, up })?;
    Ok(now)
}

fn answered(
    alloc: Global,
    inputs: Inputs,
    interface: &Text,
    number: u64,
    answer: &Answer,
) -> Result<Inputs, Memory>
    ensures { IfOk result (λ now. now ≡ record inputs {
      interfaces
          = map (spec.answered_interface interface.now number answer.now) inputs.interfaces;
    }) }
{
    let Inputs {
        conf,
        devices,
        operator_states,
        interfaces,
        radios,
        next,
    } = inputs;
    let interfaces = with_answers(alloc, interface, number, answer, interfaces)?;
    Ok(Inputs {
        conf,
        devices,
        operator_states,
        interfaces,
        radios,
        next,
    })
}

fn with_answers(
    alloc: Global,
    interface: &Text,
    number: u64,
    answer: &Answer,
    interfaces: Items<OpenInterface>,
) -> Result<Items<OpenInterface>, Memory>
    ensures { IfOk result (λ now. now
        ≡ map (spec.answered_interface interface.now number answer.now) interfaces) }
{
    let mut now = Items::new(alloc);
    for asked in interfaces.into_vec() {
        now.push(with_answer(alloc, interface, number, answer, asked)?)?;
    }
    Ok(now)
}

fn with_answer(
    alloc: Global,
    interface: &Text,
    number: u64,
    answer: &Answer,
    asked: OpenInterface,
) -> Result<OpenInterface, Memory>
    ensures { IfOk result (λ now. now
        ≡ spec.answered_interface interface.now number answer.now asked) }
{
    if (asked.request.name.as_bytes() == interface.as_bytes()) & (asked.number == number) {
        return Ok(OpenInterface {
            number: asked.number,
            request: asked.request,
            answer: Some(copy_answer(alloc, answer)?),
        });
    }
    Ok(asked)
}

fn radio_answered(
    alloc: Global,
    inputs: Inputs,
    radio: &Text,
    number: u64,
    ports: &[Option<DevName>],
) -> Result<Inputs, Memory>
    ensures { IfOk result (λ now. now ≡ record inputs {
      radios
          = map (spec.answered_radio radio.now number ports.now) inputs.radios;
    }) }
{
    let Inputs {
        conf,
        devices,
        operator_states,
        interfaces,
        radios,
        next,
    } = inputs;
    let radios = with_all_ports(alloc, radio, number, ports, radios)?;
    Ok(Inputs {
        conf,
        devices,
        operator_states,
        interfaces,
        radios,
        next,
    })
}

fn with_all_ports(
    alloc: Global,
    radio: &Text,
    number: u64,
    ports: &[Option<DevName>],
    radios: Items<OpenRadio>,
) -> Result<Items<OpenRadio>, Memory>
    ensures { IfOk result (λ now. now
        ≡ map (spec.answered_radio radio.now number ports.now) radios) }
{
    let mut now = Items::new(alloc);
    for asked in radios.into_vec() {
        now.push(with_ports(alloc, radio, number, ports, asked)?)?;
    }
    Ok(now)
}

fn with_ports(
    alloc: Global,
    radio: &Text,
    number: u64,
    ports: &[Option<DevName>],
    asked: OpenRadio,
) -> Result<OpenRadio, Memory>
    ensures { IfOk result (λ now. now ≡ spec.answered_radio radio.now number ports.now asked) }
{
    if (asked.request.name.as_bytes() == radio.as_bytes()) & (asked.number == number) {
        return Ok(OpenRadio {
            number: asked.number,
            request: asked.request,
            ports: Some(copy_items(alloc, ports)?),
        });
    }
    Ok(asked)
}
