ghost use Rattle.std.specs.Prelude.{◌≡◌, ◌≢◌, ◌-◌, [], IfOk, IfErr, Ok as Found, Err as Refused};
ghost use Rattle.serde_json.specs.View.{view, number_view, items_view, members_view};
ghost use Rattle.blob_json.specs.FromJson.{attrs_of, before_nul, items_from, members_of};
ghost use Rattle.blob_json.specs.FromJson.{number_value, value_of};
ghost use Rattle.blob_json.specs.declared.json_error.JsonError.TheVariants.{Deep};
ghost use Rattle.blob_json.specs.declared.json_error.JsonError.TheVariants.{Memory as NoMemory};

use crate::JsonError;
use crate::json_error::escape;
use blob_codec::{Attr, Blob, MOST_LEVELS};
use lanes_scan::first_nul;
use plane_io::{Memory, Text};
use serde_json::{Map, Number, Value};
use sqlite_items::Items;
use std::alloc::Global;

/// The attributes of a JSON object: its members in the order of their names.
///
/// A truth value is a byte, 1 for `true`. A whole number has 32 bits where it fits, and else 64. An
/// object is a table, and an array an array of values with empty names. `null` has no type. Texts
/// and names end in front of their first zero character.
///
/// # Errors
///
/// The first fault, from front to back, with its path: `Fraction`, `Wide` or `Deep`, an array or
/// object before what is in it. `NotTable` where the value is no object, and `Memory` where there
/// was not enough memory.
pub fn blob_of_json(alloc: Global, value: &Value) -> Result<Items<Attr>, JsonError>
    ensures found { IfOk result (λ attrs. attrs_of (view value.now) ≡ Found attrs) }
    ensures refused { (error : JsonError) → result ≡ Refused error → error ≢ NoMemory →
        attrs_of (view value.now) ≡ Refused error }
{
    match value {
        Value::Object(members) => convert_members(alloc, members, MOST_LEVELS),
        _ => Err(JsonError::NotTable),
    }
}

#[cycle(convert)]
fn convert_members(
    alloc: Global,
    members: &Map<String, Value>,
    levels: u8,
) -> Result<Items<Attr>, JsonError>
    ensures found { IfOk result (λ attrs.
        members_of levels (members_view members.now.entries) ≡ Found attrs) }
    ensures refused { (error : JsonError) → result ≡ Refused error → error ≢ NoMemory →
        members_of levels (members_view members.now.entries) ≡ Refused error }
{
    let mut attrs = Items::new(alloc);
    for (name, value) in members.iter() {
        match convert_value(alloc, value, levels) {
            Ok(value) => {
                let name = front_of(alloc, name.as_bytes())?;
                attrs.push(Attr { name, value })?;
            }
            Err(error) => {
                let part = escape(alloc, name.as_bytes())?;
                return Err(error.inside(alloc, part.as_bytes()));
            }
        }
    }
    Ok(attrs)
}

#[cycle(convert)]
fn convert_items(alloc: Global, items: &Vec<Value>, levels: u8) -> Result<Items<Attr>, JsonError>
    ensures found { IfOk result (λ attrs.
        items_from levels 0 (items_view items.now.items) ≡ Found attrs) }
    ensures refused { (error : JsonError) → result ≡ Refused error → error ≢ NoMemory →
        items_from levels 0 (items_view items.now.items) ≡ Refused error }
{
    let mut attrs = Items::new(alloc);
    for item in items {
        match convert_value(alloc, item, levels) {
            Ok(value) => {
                let name = empty(alloc);
                attrs.push(Attr { name, value })?;
            }
            Err(error) => {
                let part = attrs.len().to_string(alloc)?;
                return Err(error.inside(alloc, part.as_bytes()));
            }
        }
    }
    Ok(attrs)
}

#[cycle(convert)]
fn convert_value(alloc: Global, value: &Value, levels: u8) -> Result<Blob, JsonError>
    ensures found { IfOk result (λ blob. value_of levels (view value.now) ≡ Found blob) }
    ensures refused { (error : JsonError) → result ≡ Refused error → error ≢ NoMemory →
        value_of levels (view value.now) ≡ Refused error }
{
    match value {
        Value::Null => Ok(Blob::Unspec),
        Value::Bool(truth) => Ok(Blob::I8(i8::from(*truth))),
        Value::Number(number) => convert_number(alloc, number),
        Value::String(text) => Ok(Blob::Str(front_of(alloc, text.as_bytes())?)),
        Value::Array(items) => {
            let fewer = deeper(alloc, levels)?;
            Ok(Blob::Array(convert_items(alloc, items, fewer)?))
        }
        Value::Object(members) => {
            let fewer = deeper(alloc, levels)?;
            Ok(Blob::Table(convert_members(alloc, members, fewer)?))
        }
    }
}

/// How many levels are left within an array or an object.
fn deeper(alloc: Global, levels: u8) -> Result<u8, JsonError>
    ensures found { IfOk result (λ fewer. (levels ≢ 0) × (fewer ≡ levels - 1)) }
    ensures refused { IfErr result (λ error. (levels ≡ 0) × (error ≡ Deep [])) }
{
    match levels.checked_sub(1) {
        Some(fewer) => Ok(fewer),
        None => Err(JsonError::Deep { path: empty(alloc) }),
    }
}

fn convert_number(alloc: Global, number: &Number) -> Result<Blob, JsonError>
    ensures { result ≡ number_value (number_view number.now) }
{
    match number.as_i64() {
        Some(whole) => Ok(match i32::try_from(whole) {
            Ok(small) => Blob::I32(small),
            Err(_) => Blob::I64(whole),
        }),
        None if number.is_u64() => Err(JsonError::Wide { path: empty(alloc) }),
        None => Err(JsonError::Fraction { path: empty(alloc) }),
    }
}

fn empty(alloc: Global) -> Text
    ensures { result ≡ [] }
{
    Text::from_vec(Vec::new(alloc))
}

/// What is in front of the first zero byte.
#[tactic(auto, unfolding(crate::specs::FromJson::before_nul))]
fn front_of(alloc: Global, text: &[u8]) -> Result<Text, Memory>
    ensures { IfOk result (λ front. front ≡ before_nul text.now) }
{
    let end = first_nul(text).unwrap_or(text.len());
    let (front, _) = text.split_at(end);
    Text::from_bytes(alloc, front)
}
