//! Names for a graph of devices beside those of the rows.
ghost use Rattle.std.specs.Prelude.{◌≡◌, ◌++◌, ◌||◌, Some, None, option_to_list, is_some};
ghost use Rattle.std.specs.Prelude.{if◌then◌else◌, IfOk, OnOk};
ghost use Rattle.std.specs.List.{filter_map};
ghost use Rattle.net_rules.specs.Inputs.{device_in};
ghost use Rattle.net_view.specs.Index.{IsIndexOf};
ghost use Rattle.net_view.specs.RadioPorts.{ArePortsOf, as_joined};
ghost use Rattle.load_parts.specs.Further as spec;

use kern_model::{DevName, Device};
use net_rules::Inputs;
use net_view::{Index, PortJoin, RadioPorts};
use plane_io::Memory;
use std::alloc::Global;

/// The names of present devices and of ports of radios that have no row, each once.
///
/// # Errors
///
/// `Memory` where there is not enough of it.
pub fn further_names(
    alloc: Global,
    inputs: &Inputs,
    ports: &RadioPorts,
) -> Result<Vec<DevName>, Memory>
    requires { ArePortsOf inputs.now ports.now }
    ensures { IfOk result (λ names. names.items ≡ spec.further_names inputs.now) }
{
    let mut names = Vec::new(alloc);
    add_devices(&mut names, &ports.index, inputs, inputs.devices.as_slice())?;
    add_ports(&mut names, &ports.index, inputs, ports.joined.as_slice())?;
    Ok(names)
}

fn add_devices(
    names: &mut Vec<DevName>,
    index: &Index,
    inputs: &Inputs,
    devices: &[(DevName, Device)],
) -> Result<(), Memory>
    requires { IsIndexOf inputs.now index.now }
    ensures { OnOk result (names.new.items ≡ names.old.items
        ++ filter_map (spec.further_device inputs.now.conf) devices.now) }
{
    for entry in devices {
        add_some(names, further_device(index, inputs, &entry.0))?;
    }
    Ok(())
}

fn add_ports(
    names: &mut Vec<DevName>,
    index: &Index,
    inputs: &Inputs,
    joined: &[PortJoin],
) -> Result<(), Memory>
    requires { IsIndexOf inputs.now index.now }
    ensures { OnOk result (names.new.items ≡ names.old.items
        ++ filter_map (λ join. spec.further_port inputs.now (as_joined join)) joined.now) }
{
    for join in joined {
        add_some(names, further_port(index, inputs, &join.port))?;
    }
    Ok(())
}

// A name, where it has no row.
fn further_device(index: &Index, inputs: &Inputs, name: &DevName) -> Option<DevName>
    requires { IsIndexOf inputs.now index.now }
    ensures { result ≡ (if spec.has_row inputs.now.conf name.now then None else Some name.now) }
{
    match index.row(inputs, name) {
        Some(_row) => None,
        None => Some(*name),
    }
}

// A name, where it has no row and is no present device.
fn further_port(index: &Index, inputs: &Inputs, name: &DevName) -> Option<DevName>
    requires { IsIndexOf inputs.now index.now }
    ensures { result ≡ (if spec.has_row inputs.now.conf name.now
        || is_some (device_in inputs.now.devices name.now) then None else Some name.now) }
{
    match index.device(inputs, name) {
        Some(_entry) => None,
        None => further_device(index, inputs, name),
    }
}

fn add_some(names: &mut Vec<DevName>, name: Option<DevName>) -> Result<(), Memory>
    ensures { OnOk result (names.new.items ≡ names.old.items ++ option_to_list name) }
{
    if let Some(name) = name {
        names.push(name)?;
    }
    Ok(())
}
