ghost use Rattle.std.specs.Prelude.{◌≡◌, IfOk, map};
ghost use Rattle.serde_json.specs.Data.{object};
ghost use Rattle.serde_json.specs.View.{view, items_of, items_view, members_view};
ghost use Rattle.blob_json.specs.ToJson.{data_of, json_of, members_of};

use blob_codec::{Attr, Blob, json_string};
use plane_io::Memory;
use serde_json::{Map, Value};
use std::alloc::Global;

/// The attributes as a JSON object. Names and strings are given as text: as they are where they are
/// UTF-8, and otherwise each byte as the character of that number.
///
/// A table is an object, of whose equal names the last counts, and an array an array. A byte is a
/// truth value, `true` where it is not 0; other numbers are whole numbers. `null` is a value of no
/// type.
///
/// # Errors
///
/// Want of memory.
pub fn json_of_blob(alloc: Global, attrs: &[Attr]) -> Result<Value, Memory>
    ensures { IfOk result (λ value. view value ≡ json_of attrs.now) }
{
    Ok(Value::Object(convert_members(alloc, attrs)?))
}

#[cycle(json)]
fn convert_members(alloc: Global, attrs: &[Attr]) -> Result<Map<String, Value>, Memory>
    ensures { IfOk result (λ members. members_view members.entries ≡ members_of attrs.now) }
{
    let mut members = Map::new(alloc);
    for attr in attrs {
        let name = json_string(alloc, attr.name.as_bytes())?;
        let value = convert_value(alloc, &attr.value)?;
        drop(members.insert(name, value)?);
    }
    Ok(members)
}

#[cycle(json)]
fn convert_items(alloc: Global, attrs: &[Attr]) -> Result<Vec<Value>, Memory>
    ensures { IfOk result (λ items.
        items_view items.items ≡ items_of (map (λ attr. data_of attr.value) attrs.now)) }
{
    let mut items = Vec::new(alloc);
    for attr in attrs {
        items.push(convert_value(alloc, &attr.value)?)?;
    }
    Ok(items)
}

#[cycle(json)]
fn convert_value(alloc: Global, value: &Blob) -> Result<Value, Memory>
    ensures { IfOk result (λ json. view json ≡ data_of value.now) }
{
    match value {
        Blob::Unspec => Ok(Value::Null),
        Blob::Array(attrs) => Ok(Value::Array(convert_items(alloc, attrs.as_slice())?)),
        Blob::Table(attrs) => Ok(Value::Object(convert_members(alloc, attrs.as_slice())?)),
        Blob::Str(text) => Ok(Value::String(json_string(alloc, text.as_bytes())?)),
        Blob::I64(number) => Ok(Value::from(*number)),
        Blob::I32(number) => Ok(Value::from(*number)),
        Blob::I16(number) => Ok(Value::from(*number)),
        Blob::I8(number) => Ok(Value::Bool(*number != 0)),
    }
}
