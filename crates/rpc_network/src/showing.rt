ghost use Rattle.std.specs.Prelude.{IfOk};
ghost use Rattle.serde_json.specs.View.{view};
ghost use Rattle.step_net.specs.NetLine.{NetLine};
ghost use Rattle.rpc_network.specs.Told.{Shows, ShowsValue};

use crate::net_answer::{NetAnswer, refuse, refuse_for};
use blob_json::{JsonError, blob_of_json};
use kern_model::read_name;
use net_plane::Net;
use plane_io::{Memory, Text};
use script_lines::CallStatus;
use serde_json::Value;
use std::alloc::Global;

/// A call asks for the status of all interfaces.
///
/// # Errors
///
/// Want of memory.
pub fn answer_dump(alloc: Global, net: &Net) -> Result<NetAnswer, Memory>
    ensures { Shows NetLine.dump net.now result }
{
    let Ok(value) = net.dump(alloc) else {
        return Err(Memory);
    };
    show(alloc, &value)
}

/// A call asks for the status of an interface.
///
/// # Errors
///
/// Want of memory.
pub fn answer_interface_status(alloc: Global, net: &Net, name: &Text) -> Result<NetAnswer, Memory>
    ensures { Shows (NetLine.interface name.now) net.now result }
{
    match net.interface_status(alloc, name) {
        Ok(value) => show(alloc, &value),
        Err(error) => refuse_for(alloc, error),
    }
}

/// A call asks for the status of a device. A text that is not the name of a device is that of none.
///
/// # Errors
///
/// Want of memory.
pub fn answer_device_status(alloc: Global, net: &Net, name: &Text) -> Result<NetAnswer, Memory>
    ensures { Shows (NetLine.device name.now) net.now result }
{
    let Some(name) = read_name(name.as_bytes()) else {
        return Ok(refuse(alloc, CallStatus::NotFound));
    };
    match net.device_status(alloc, &name) {
        Ok(value) => show(alloc, &value),
        Err(error) => refuse_for(alloc, error),
    }
}

/// A call asks for the status of a radio.
///
/// # Errors
///
/// Want of memory.
pub fn answer_radio_status(alloc: Global, net: &Net, name: &Text) -> Result<NetAnswer, Memory>
    ensures { Shows (NetLine.radio name.now) net.now result }
{
    match net.radio_status(alloc, name) {
        Ok(value) => show(alloc, &value),
        Err(error) => refuse_for(alloc, error),
    }
}

/// A value as a payload. Where it is none, the call is refused.
fn show(alloc: Global, value: &Value) -> Result<NetAnswer, Memory>
    ensures { IfOk result (ShowsValue (view value.now)) }
{
    match blob_of_json(alloc, value) {
        Ok(payload) => Ok(NetAnswer {
            requests: Text::from_vec(Vec::new(alloc)),
            answer: Ok(payload),
        }),
        Err(JsonError::Memory) => Err(Memory),
        Err(_) => Ok(refuse(alloc, CallStatus::UnknownError)),
    }
}
