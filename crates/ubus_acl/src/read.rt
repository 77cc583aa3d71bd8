ghost use Rattle.std.specs.Prelude.{◌≡◌, ◌≢◌, IfOk, Err};
ghost use Rattle.std.specs.Option.{option_map};
ghost use Rattle.serde_json.specs.View.{view, items_view, members_view};
ghost use Rattle.ubus_acl.specs.declared.access_error.AclError.TheVariants.{Memory as NoMemory};
ghost use Rattle.ubus_acl.specs.Form as spec;

use crate::{Access, AclError, Record};
use plane_io::{Items, Memory, Text};
use serde_json::{Map, Value};
use std::alloc::Global;

/// The records of a list, or its first item that is none.
pub(crate) fn read_records(alloc: Global, items: &[Value]) -> Result<Items<Record>, AclError>
    ensures { result ≢ Err NoMemory → result ≡ spec.records_from 0 (items_view items.now) }
{
    let mut records = Items::new(alloc);
    for item in items {
        let Some(row) = read_record(alloc, item)? else {
            return Err(AclError::BadRecord {
                index: records.as_slice().len(),
            });
        };
        records.push(row)?;
    }
    Ok(records)
}

/// The record that a value is, if it is one.
fn read_record(alloc: Global, value: &Value) -> Result<Option<Record>, Memory>
    ensures { IfOk result (λ found. found ≡ spec.record_of (view value.now)) }
{
    let Some(user) = read_text(alloc, value.get("user"))? else {
        return Ok(None);
    };
    let Some(group) = read_text(alloc, value.get("group"))? else {
        return Ok(None);
    };
    if user.is_none() && group.is_none() {
        return Ok(None);
    }
    let Some(access) = read_access(alloc, value.get("access"))? else {
        return Ok(None);
    };
    let Some(publish) = read_texts(alloc, value.get("publish"))? else {
        return Ok(None);
    };
    let Some(subscribe) = read_texts(alloc, value.get("subscribe"))? else {
        return Ok(None);
    };
    let Some(send) = read_texts(alloc, value.get("send"))? else {
        return Ok(None);
    };
    let Some(listen) = read_texts(alloc, value.get("listen"))? else {
        return Ok(None);
    };
    Ok(Some(Record {
        user,
        group,
        access,
        publish,
        subscribe,
        send,
        listen,
    }))
}

/// A text that may be absent.
fn read_text(alloc: Global, value: Option<&Value>) -> Result<Option<Option<Text>>, Memory>
    ensures { IfOk result (λ text. text ≡ spec.text_in (option_map (λ v. view v.now) value.entry)) }
{
    match value {
        None => Ok(Some(None)),
        Some(Value::String(text)) => Ok(Some(Some(Text::from_bytes(alloc, text.as_bytes())?))),
        Some(_) => Ok(None),
    }
}

/// An array of texts, empty where it is absent.
fn read_texts(alloc: Global, value: Option<&Value>) -> Result<Option<Items<Text>>, Memory>
    ensures { IfOk result (λ texts. texts
        ≡ spec.texts_in (option_map (λ v. view v.now) value.entry)) }
{
    match value {
        None => Ok(Some(Items::new(alloc))),
        Some(value) => texts_of(alloc, value),
    }
}

fn texts_of(alloc: Global, value: &Value) -> Result<Option<Items<Text>>, Memory>
    ensures { IfOk result (λ texts. texts ≡ spec.texts_of (view value.now)) }
{
    match value {
        Value::Array(items) => copy_texts(alloc, items),
        _ => Ok(None),
    }
}

fn copy_texts(alloc: Global, items: &Vec<Value>) -> Result<Option<Items<Text>>, Memory>
    ensures { IfOk result (λ texts. texts ≡ spec.texts (items_view items.now.items)) }
{
    let mut texts = Items::new(alloc);
    for item in items {
        let Value::String(text) = item else {
            return Ok(None);
        };
        texts.push(Text::from_bytes(alloc, text.as_bytes())?)?;
    }
    Ok(Some(texts))
}

/// Methods by patterns of objects, none where it is absent.
fn read_access(alloc: Global, value: Option<&Value>) -> Result<Option<Items<Access>>, Memory>
    ensures { IfOk result (λ access. access
        ≡ spec.access_in (option_map (λ v. view v.now) value.entry)) }
{
    match value {
        None => Ok(Some(Items::new(alloc))),
        Some(Value::Object(members)) => read_methods(alloc, members),
        Some(_) => Ok(None),
    }
}

fn read_methods(
    alloc: Global,
    members: &Map<String, Value>,
) -> Result<Option<Items<Access>>, Memory>
    ensures { IfOk result (λ access. access ≡ spec.methods (members_view members.now.entries)) }
{
    let mut access = Items::new(alloc);
    for (object, value) in members.iter() {
        let Some(methods) = methods_of(alloc, value)? else {
            return Ok(None);
        };
        let object = Text::from_bytes(alloc, object.as_bytes())?;
        access.push(Access { object, methods })?;
    }
    Ok(Some(access))
}

fn methods_of(alloc: Global, value: &Value) -> Result<Option<Items<Text>>, Memory>
    ensures { IfOk result (λ methods. methods ≡ spec.methods_of (view value.now)) }
{
    match value.get("methods") {
        Some(methods) => texts_of(alloc, methods),
        None => Ok(None),
    }
}
