ghost use Rattle.std.specs.Prelude.{◌≡◌, false, IfOk};
ghost use Rattle.serde_json.specs.View.{view};
ghost use Rattle.serde_json.specs.Written.{has_float};
ghost use Rattle.step_net.specs.NetLine.{NetLine};
ghost use Rattle.step_net.specs.Acted.{value_line};
ghost use Rattle.step_net.specs.Taken.{Shows, telling_in};
ghost use Rattle.step_net.specs.Told as spec;

use crate::told::{Told, refuse, refuse_or};
use kern_model::read_name;
use net_plane::Net;
use plane_io::{Memory, Text};
use script_lines::LineError;
use serde_json::Value;
use std::alloc::Global;

/// What is shown of all interfaces, in file order.
///
/// # Errors
///
/// Want of memory.
pub fn show_dump(alloc: Global, net: &Net) -> Result<Told, Memory>
    ensures { Shows NetLine.dump net.now result }
{
    let Ok(value) = net.dump(alloc) else {
        return Err(Memory);
    };
    show(alloc, &value)
}

/// What is shown of an interface.
///
/// # Errors
///
/// Want of memory.
pub fn show_interface(alloc: Global, net: &Net, name: &Text) -> Result<Told, Memory>
    ensures { Shows (NetLine.interface name.now) net.now result }
{
    match net.interface_status(alloc, name) {
        Ok(value) => show(alloc, &value),
        Err(error) => refuse_or(alloc, error),
    }
}

/// What is shown of a device. A text that is not the name of a device is that of none.
///
/// # Errors
///
/// Want of memory.
pub fn show_device(alloc: Global, net: &Net, name: &Text) -> Result<Told, Memory>
    ensures { Shows (NetLine.device name.now) net.now result }
{
    let Some(name) = read_name(name.as_bytes()) else {
        return refuse(alloc, &LineError::NoDevice);
    };
    match net.device_status(alloc, &name) {
        Ok(value) => show(alloc, &value),
        Err(error) => refuse_or(alloc, error),
    }
}

/// What is shown of a radio.
///
/// # Errors
///
/// Want of memory.
pub fn show_radio(alloc: Global, net: &Net, name: &Text) -> Result<Told, Memory>
    ensures { Shows (NetLine.radio name.now) net.now result }
{
    match net.radio_status(alloc, name) {
        Ok(value) => show(alloc, &value),
        Err(error) => refuse_or(alloc, error),
    }
}

// A value on a line of its own. It has no fraction, so that its text is exact.
fn show(alloc: Global, value: &Value) -> Result<Told, Memory>
    requires { has_float (view value.now) ≡ false }
    ensures { IfOk result (λ told. telling_in told ≡ spec.shown (value_line (view value.now))) }
{
    let mut text = value.to_vec(alloc)?;
    text.push(b'\n')?;
    Ok(Told {
        shown: Text::from_vec(text),
        refusal: None,
    })
}
