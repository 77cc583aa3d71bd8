//! The interfaces at each name.
ghost use Rattle.std.specs.Prelude.{◌≡◌, IfOk, OnOk};
ghost use Rattle.std.specs.Option.{option_and_then};
ghost use Rattle.net_rules.specs.Rows as rows;
ghost use Rattle.net_rules.specs.RadioPorts as radio_ports;
ghost use Rattle.net_rules.specs.Inputs.{facts_of};
ghost use Rattle.net_view.specs.Index.{IsIndexOf};
ghost use Rattle.net_view.specs.RadioPorts.{ArePortsOf};
ghost use Rattle.net_reach.specs.Groups.{HasGroups, HasMembers, Gains};
ghost use Rattle.net_reach.specs.Reach as spec;

use crate::groups::add_place;
use kern_model::DevName;
use net_rows::InterfaceRow;
use net_rules::{Answer, Inputs};
use net_view::{Index, RadioPorts, is_first};
use plane_io::{Memory, Text};
use std::alloc::Global;
use std::collections::BTreeMap;

/// The places of the interfaces at each device.
pub(crate) fn interfaces_at(
    alloc: Global,
    ports: &RadioPorts,
    inputs: &Inputs,
    rows: &[InterfaceRow],
) -> Result<BTreeMap<DevName, Vec<usize>>, Memory>
    requires { ArePortsOf inputs.now ports.now }
    ensures { IfOk result (λ groups. HasGroups groups (spec.is_at_device inputs.now) rows.now) }
{
    let mut groups = BTreeMap::new(alloc);
    for (place, row) in rows.iter().enumerate() {
        let device = device_of(ports, inputs, row);
        add_at(alloc, &mut groups, device, place)?;
    }
    Ok(groups)
}

/// The places of the interfaces whose open request was last answered with each device.
pub(crate) fn interfaces_told(
    alloc: Global,
    index: &Index,
    inputs: &Inputs,
    rows: &[InterfaceRow],
) -> Result<BTreeMap<DevName, Vec<usize>>, Memory>
    requires { IsIndexOf inputs.now index.now }
    ensures { IfOk result (λ groups. HasMembers groups (spec.is_at_l3_device inputs.now) rows.now) }
{
    let mut groups = BTreeMap::new(alloc);
    for (place, row) in rows.iter().enumerate() {
        let l3_device = l3_device_at(index, inputs, row, place);
        add_at(alloc, &mut groups, l3_device, place)?;
    }
    Ok(groups)
}

fn add_at(
    alloc: Global,
    groups: &mut BTreeMap<DevName, Vec<usize>>,
    name: Option<DevName>,
    place: usize,
) -> Result<(), Memory>
    ensures { OnOk result (Gains groups.old groups.new (λ q. rows.is_name name q) place) }
{
    match name {
        Some(name) => add_place(alloc, groups, &name, place),
        None => Ok(()),
    }
}

fn device_of(ports: &RadioPorts, inputs: &Inputs, row: &InterfaceRow) -> Option<DevName>
    requires { ArePortsOf inputs.now ports.now }
    ensures { result ≡ radio_ports.device_of (facts_of inputs.now) row.now }
{
    match &row.device {
        Some(device) => Some(*device),
        None => ports.first_port(&row.name),
    }
}

// The answers for a name are those for its first row.
fn l3_device_at(index: &Index, inputs: &Inputs, row: &InterfaceRow, place: usize) -> Option<DevName>
    requires { IsIndexOf inputs.now index.now }
    ensures { result ≡ spec.l3_device_at inputs.now place row.now }
{
    if !is_first(&index.interfaces, &row.name, place) {
        return None;
    }
    told_l3_device(index, inputs, &row.name)
}

fn told_l3_device(index: &Index, inputs: &Inputs, interface: &Text) -> Option<DevName>
    requires { IsIndexOf inputs.now index.now }
    ensures { result ≡ spec.told_l3_device inputs.now interface.now }
{
    match index.interface_request(inputs, interface) {
        Some(found) => answered_device(&found.answer),
        None => None,
    }
}

fn answered_device(answer: &Option<Answer>) -> Option<DevName>
    ensures { result ≡ option_and_then (λ a. a.device) answer.now }
{
    match answer {
        Some(answer) => answer.device,
        None => None,
    }
}
