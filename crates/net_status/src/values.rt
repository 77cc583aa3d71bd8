ghost use Rattle.std.specs.Prelude.{◌≡◌, map, IfOk, string_bytes};
ghost use Rattle.serde_json.specs.Data.{boolean};
ghost use Rattle.serde_json.specs.View.{view};
ghost use Rattle.net_addr.specs.Printed.{addr_text};
ghost use Rattle.net_status.specs.Values as spec;

use blob_codec::json_string;
use kern_model::DevName;
use net_addr::{Addr, print_addr};
use plane_io::Memory;
use serde_json::Value;
use std::alloc::Global;

/// Bytes as a JSON text.
pub fn text(alloc: Global, bytes: &[u8]) -> Result<Value, Memory>
    ensures { IfOk result (λ value. view value ≡ spec.text bytes.now) }
{
    Ok(Value::String(json_string(alloc, bytes)?))
}

/// The name, or `null` without one.
pub fn name_or_null(alloc: Global, name: Option<DevName>) -> Result<Value, Memory>
    ensures { IfOk result (λ value. view value ≡ spec.text_or_null name) }
{
    match name {
        Some(name) => text(alloc, name.text()),
        None => Ok(Value::Null),
    }
}

/// A truth value.
pub fn truth(is_so: bool) -> Value
    ensures { view result ≡ boolean is_so }
{
    Value::Bool(is_so)
}

/// A list of values.
pub fn list(items: Vec<Value>) -> Value
    ensures { view result ≡ spec.list (map view items.items) }
{
    Value::Array(items)
}

/// The text of an address.
pub fn address_text(alloc: Global, address: Addr) -> Result<Value, Memory>
    ensures { IfOk result (λ value. view value ≡ spec.text (addr_text address)) }
{
    let mut buffer = [0u8; 64];
    let size = print_addr(address, &mut buffer);
    text(alloc, &buffer[..size])
}
