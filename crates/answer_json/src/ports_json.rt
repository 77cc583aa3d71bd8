ghost use Rattle.std.specs.Prelude.{ℕ, List, Option, IfOk, IfSome, IfNone};
ghost use Rattle.serde_json.specs.View.{view};
ghost use Rattle.answer_json.specs.Members.{IsArray};
ghost use Rattle.answer_json.specs.PortsJson.{IsPort, ArePorts};

use crate::answer_json::read_device;
use kern_model::DevName;
use plane_io::{Items, Memory};
use serde_json::Value;
use std::alloc::Global;

/// The answer of the handler of a radio: an object with the member `ports`, an array with the name
/// of a device or `null` for each of its sections. `None` where it is no answer. Other members are
/// passed over.
///
/// # Errors
///
/// Want of memory.
pub fn read_ports(alloc: Global, value: &Value) -> Result<Option<Items<Option<DevName>>>, Memory>
    ensures found { IfOk result (λ found. IfSome found (ArePorts (view value.now))) }
    ensures none { IfOk result (λ found. IfNone found ((ports : List (Option (List ℕ))) →
        ArePorts (view value.now) ports → ⊥)) }
{
    match value.get("ports") {
        Some(member) => read_array(alloc, member),
        None => Ok(None),
    }
}

fn read_array(alloc: Global, value: &Value) -> Result<Option<Items<Option<DevName>>>, Memory>
    ensures found { IfOk result (λ found. IfSome found (IsArray IsPort (view value.now))) }
    ensures none { IfOk result (λ found. IfNone found ((ports : List (Option (List ℕ))) →
        IsArray IsPort (view value.now) ports → ⊥)) }
{
    let Some(values) = value.as_array() else {
        return Ok(None);
    };
    let mut ports = Items::new(alloc);
    for item in values.as_slice() {
        let Some(port) = read_port(item) else {
            return Ok(None);
        };
        ports.push(port)?;
    }
    Ok(Some(ports))
}

fn read_port(value: &Value) -> Option<Option<DevName>>
    ensures found { IfSome result (IsPort (view value.now)) }
    ensures none { IfNone result ((port : Option (List ℕ)) → IsPort (view value.now) port → ⊥) }
{
    if value.is_null() {
        return Some(None);
    }
    Some(Some(read_device(value)?))
}
