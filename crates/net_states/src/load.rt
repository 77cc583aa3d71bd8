//! What is kept of interfaces beside inputs, before any of them claims or gives something.
ghost use Rattle.std.specs.Prelude.{◌≡◌, length, None, if◌then◌else◌, slice_get, IfOk};
ghost use Rattle.net_rules.specs.Inputs.{facts_of, no_inputs};
ghost use Rattle.net_rules.specs.RadioPorts as radio_ports;
ghost use Rattle.net_view.specs.RadioPorts.{ArePortsOf};
ghost use Rattle.net_states.specs.Kept as kept;
ghost use Rattle.net_states.specs.Kept.{AreOwnRequests, IsTied, AreStatesOf};
ghost use Rattle.net_states.specs.Load as spec;
ghost use Rattle.net_states.specs.Load.{AreIdle, IsNotedIdle, AreBeside};

use crate::states::States;
use kern_model::DevName;
use net_after::in_order;
use net_reach::Reach;
use net_rows::InterfaceRow;
use net_rules::{Inputs, InterfaceRequest, InterfaceState};
use net_view::{RadioPorts, asks_nothing, is_first};
use plane_io::{Memory, Text};
use std::alloc::Global;

impl States {
    /// What is kept where there are no inputs. It takes no memory.
    pub fn new(alloc: Global) -> States
        ensures { AreStatesOf no_inputs result }
    {
        States {
            reach: Reach::new(alloc),
            list: Vec::new(alloc),
            spare: Vec::new(alloc),
            lost: Vec::new(alloc),
        }
    }

    /// What is kept of interfaces beside inputs, where none of them claims or gives anything yet.
    ///
    /// # Errors
    ///
    /// `Memory` where there is not enough of it.
    pub fn of(alloc: Global, inputs: &Inputs, ports: &RadioPorts) -> Result<States, Memory>
        requires own { AreOwnRequests inputs.now }
        requires ports { ArePortsOf inputs.now ports.now }
        ensures tied { IfOk result (λ states. IsTied inputs.now states) }
        ensures idle { IfOk result (λ states. AreIdle states.list.items) }
    {
        let rows = inputs.conf.interfaces.as_slice();
        let reach = Reach::of(alloc, inputs)?;
        let list = idle_states(alloc, inputs, ports, rows)?;
        let spare = spare_requests(alloc, rows, list.as_slice())?;
        let lost = Vec::with_capacity(alloc, rows.len())?;
        Ok(States {
            reach,
            list,
            spare,
            lost,
        })
    }
}

fn idle_states(
    alloc: Global,
    inputs: &Inputs,
    ports: &RadioPorts,
    rows: &[InterfaceRow],
) -> Result<Vec<InterfaceState>, Memory>
    requires ports { ArePortsOf inputs.now ports.now }
    requires rows { rows.now ≡ inputs.now.conf.interfaces }
    ensures { IfOk result (λ states. AreBeside (IsNotedIdle inputs.now) rows.now states.items) }
{
    let mut states = Vec::with_capacity(alloc, rows.len())?;
    for (place, row) in rows.iter().enumerate() {
        states.push(idle_state(inputs, ports, row, place))?;
    }
    Ok(states)
}

// The interface of the row at a place, where it neither claims nor gives anything.
fn idle_state(
    inputs: &Inputs,
    ports: &RadioPorts,
    row: &InterfaceRow,
    place: usize,
) -> InterfaceState
    requires ports { ArePortsOf inputs.now ports.now }
    requires at { slice_get inputs.now.conf.interfaces place ≡ Some row.now }
    ensures { IsNotedIdle inputs.now place row.now result }
{
    let is_first = is_first(&ports.index.interfaces, &row.name, place);
    InterfaceState {
        is_first,
        device: device_of(inputs, ports, row),
        l3_device: None,
        is_claimed: false,
        is_up: false,
        number: number_of(inputs, ports, &row.name, is_first),
    }
}

fn device_of(inputs: &Inputs, ports: &RadioPorts, row: &InterfaceRow) -> Option<DevName>
    requires { ArePortsOf inputs.now ports.now }
    ensures { result ≡ radio_ports.device_of (facts_of inputs.now) row.now }
{
    match &row.device {
        Some(device) => Some(*device),
        None => ports.first_port(&row.name),
    }
}

// The number of the open request of a name, for the first row that has it.
fn number_of(inputs: &Inputs, ports: &RadioPorts, interface: &Text, is_first: bool) -> Option<u64>
    requires { ArePortsOf inputs.now ports.now }
    ensures { result ≡ (if is_first then kept.number_of inputs.now interface.now else None) }
{
    if !is_first {
        return None;
    }
    match ports.index.interface_request(inputs, interface) {
        Some(open) => Some(open.number),
        None => None,
    }
}

fn spare_requests(
    alloc: Global,
    rows: &[InterfaceRow],
    states: &[InterfaceState],
) -> Result<Vec<Option<InterfaceRequest>>, Memory>
    requires { length states.now ≡ length rows.now }
    ensures { IfOk result (λ requests. AreBeside (spec.IsSpare states.now) rows.now
        requests.items) }
{
    let mut requests = Vec::with_capacity(alloc, rows.len())?;
    for (place, row) in rows.iter().enumerate() {
        requests.push(spare_request(alloc, row, &states[place])?)?;
    }
    Ok(requests)
}

// The ask of the first row of a name that a handler serves, while none is open.
fn spare_request(
    alloc: Global,
    row: &InterfaceRow,
    state: &InterfaceState,
) -> Result<Option<InterfaceRequest>, Memory>
    ensures { IfOk result (λ request. request ≡ spec.spare_request row.now state.now) }
{
    let is_silent = asks_nothing(&row.proto);
    let is_closed = state.number.is_none();
    if !(state.is_first & (is_closed & !is_silent)) {
        return Ok(None);
    }
    Ok(Some(InterfaceRequest {
        name: row.name.copy()?,
        proto: row.proto.copy()?,
        options: in_order(alloc, row.options.as_slice())?,
        device: state.device,
    }))
}
