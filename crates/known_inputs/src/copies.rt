//! Copies of operator states and of open requests, in memory of their own.
ghost use Rattle.std.specs.Prelude.{◌≡◌, IfOk};

use kern_model::DevName;
use net_copies::{copy_answer, copy_items, copy_options};
use net_rules::{
    Answer, InterfaceRequest, OpenInterface, OpenRadio, OperatorState, RadioRequest, WifiRequest,
};
use plane_io::{Items, Memory};
use std::alloc::Global;

/// The same operator states.
pub(crate) fn copy_operator_states(
    alloc: Global,
    operator_states: &[OperatorState],
) -> Result<Items<OperatorState>, Memory>
    ensures { IfOk result (λ copies. copies ≡ operator_states.now) }
{
    let mut copies = Items::new(alloc);
    for operator_state in operator_states {
        copies.push(OperatorState {
            interface: operator_state.interface.copy()?,
            up: operator_state.up,
        })?;
    }
    Ok(copies)
}

/// The same open requests of interfaces.
pub(crate) fn copy_open_interfaces(
    alloc: Global,
    requests: &[OpenInterface],
) -> Result<Items<OpenInterface>, Memory>
    ensures { IfOk result (λ copies. copies ≡ requests.now) }
{
    let mut copies = Items::new(alloc);
    for request in requests {
        copies.push(copy_open_interface(alloc, request)?)?;
    }
    Ok(copies)
}

fn copy_open_interface(alloc: Global, request: &OpenInterface) -> Result<OpenInterface, Memory>
    ensures { IfOk result (λ copy. copy ≡ request.now) }
{
    Ok(OpenInterface {
        number: request.number,
        request: copy_interface_request(alloc, &request.request)?,
        answer: copy_answer_in(alloc, &request.answer)?,
    })
}

fn copy_interface_request(
    alloc: Global,
    request: &InterfaceRequest,
) -> Result<InterfaceRequest, Memory>
    ensures { IfOk result (λ copy. copy ≡ request.now) }
{
    Ok(InterfaceRequest {
        name: request.name.copy()?,
        proto: request.proto.copy()?,
        options: copy_options(alloc, request.options.as_slice())?,
        device: request.device,
    })
}

fn copy_answer_in(alloc: Global, answer: &Option<Answer>) -> Result<Option<Answer>, Memory>
    ensures { IfOk result (λ copy. copy ≡ answer.now) }
{
    match answer {
        Some(answer) => Ok(Some(copy_answer(alloc, answer)?)),
        None => Ok(None),
    }
}

/// The same open requests of radios.
pub(crate) fn copy_open_radios(
    alloc: Global,
    requests: &[OpenRadio],
) -> Result<Items<OpenRadio>, Memory>
    ensures { IfOk result (λ copies. copies ≡ requests.now) }
{
    let mut copies = Items::new(alloc);
    for request in requests {
        copies.push(copy_open_radio(alloc, request)?)?;
    }
    Ok(copies)
}

fn copy_open_radio(alloc: Global, request: &OpenRadio) -> Result<OpenRadio, Memory>
    ensures { IfOk result (λ copy. copy ≡ request.now) }
{
    Ok(OpenRadio {
        number: request.number,
        request: copy_radio_request(alloc, &request.request)?,
        ports: copy_ports_in(alloc, &request.ports)?,
    })
}

fn copy_ports_in(
    alloc: Global,
    ports: &Option<Items<Option<DevName>>>,
) -> Result<Option<Items<Option<DevName>>>, Memory>
    ensures { IfOk result (λ copy. copy ≡ ports.now) }
{
    match ports {
        Some(ports) => Ok(Some(copy_items(alloc, ports.as_slice())?)),
        None => Ok(None),
    }
}

fn copy_radio_request(alloc: Global, request: &RadioRequest) -> Result<RadioRequest, Memory>
    ensures { IfOk result (λ copy. copy ≡ request.now) }
{
    Ok(RadioRequest {
        name: request.name.copy()?,
        options: copy_options(alloc, request.options.as_slice())?,
        rows: copy_wifi_requests(alloc, request.rows.as_slice())?,
    })
}

fn copy_wifi_requests(alloc: Global, requests: &[WifiRequest]) -> Result<Items<WifiRequest>, Memory>
    ensures { IfOk result (λ copies. copies ≡ requests.now) }
{
    let mut copies = Items::new(alloc);
    for request in requests {
        let options = copy_options(alloc, request.options.as_slice())?;
        copies.push(WifiRequest { options })?;
    }
    Ok(copies)
}
