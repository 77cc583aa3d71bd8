ghost use Rattle.std.specs.Prelude.{◌≡◌, ◌≢◌, ◌++◌, IfOk, Err};
ghost use Rattle.std.specs.Option.{option_map};
ghost use Rattle.serde_json.specs.View.{view, items_view, members_view};
ghost use Rattle.rpc_login.specs.declared.group_error.GroupError.TheVariants.{Memory as NoMemory};
ghost use Rattle.rpc_login.specs.Form as spec;

use crate::{Group, GroupError, Perm};
use plane_io::{Items, Memory, Text};
use rpc_session::Grant;
use serde_json::{Map, Value};
use std::alloc::Global;

/// The groups of a list of files, or its first element of another form.
pub(crate) fn read_files(alloc: Global, files: &[Value]) -> Result<Items<Group>, GroupError>
    ensures { result ≢ Err NoMemory → result ≡ spec.groups_from 0 (items_view files.now) }
{
    let mut groups = Items::new(alloc);
    for (index, file) in files.iter().enumerate() {
        let Some(more) = read_file(alloc, file)? else {
            return Err(GroupError::BadGroup { index });
        };
        groups = append(groups, more)?;
    }
    Ok(groups)
}

/// The groups of a file, if it is an object of them.
fn read_file(alloc: Global, file: &Value) -> Result<Option<Items<Group>>, Memory>
    ensures { IfOk result (λ found. found ≡ spec.file_of (view file.now)) }
{
    match file {
        Value::Object(members) => read_groups(alloc, members),
        _ => Ok(None),
    }
}

fn read_groups(alloc: Global, members: &Map<String, Value>) -> Result<Option<Items<Group>>, Memory>
    ensures { IfOk result (λ found. found ≡ spec.named_groups (members_view members.now.entries)) }
{
    let mut groups = Items::new(alloc);
    for (name, value) in members.iter() {
        let Some(group) = read_group(alloc, name.as_bytes(), value)? else {
            return Ok(None);
        };
        groups.push(group)?;
    }
    Ok(Some(groups))
}

fn read_group(alloc: Global, name: &[u8], value: &Value) -> Result<Option<Group>, Memory>
    ensures { IfOk result (λ found. found ≡ spec.group_of name.now (view value.now)) }
{
    let Value::Object(_) = value else {
        return Ok(None);
    };
    let Some(read) = read_part(alloc, name, false, value.get("read"))? else {
        return Ok(None);
    };
    let Some(write) = read_part(alloc, name, true, value.get("write"))? else {
        return Ok(None);
    };
    Ok(Some(Group {
        name: Text::from_bytes(alloc, name)?,
        perms: append(read, write)?,
    }))
}

/// The perms of a part, and that of the group itself.
fn read_part(
    alloc: Global,
    name: &[u8],
    write: bool,
    value: Option<&Value>,
) -> Result<Option<Items<Perm>>, Memory>
    ensures { IfOk result (λ found. found
        ≡ spec.part_of name.now write (option_map (λ v. view v.now) value.entry)) }
{
    let Some(mut perms) = read_part_in(alloc, write, value)? else {
        return Ok(None);
    };
    perms.push(Perm {
        write,
        grant: Grant::of(alloc, b"access-group", name, part_name(write))?,
    })?;
    Ok(Some(perms))
}

fn read_part_in(
    alloc: Global,
    write: bool,
    value: Option<&Value>,
) -> Result<Option<Items<Perm>>, Memory>
    ensures { IfOk result (λ found. found
        ≡ spec.part_in write (option_map (λ v. view v.now) value.entry)) }
{
    match value {
        None => Ok(Some(Items::new(alloc))),
        Some(Value::Object(members)) => read_scopes(alloc, write, members),
        Some(_) => Ok(None),
    }
}

fn read_scopes(
    alloc: Global,
    write: bool,
    members: &Map<String, Value>,
) -> Result<Option<Items<Perm>>, Memory>
    ensures { IfOk result (λ found. found ≡ spec.scopes write (members_view members.now.entries)) }
{
    let mut perms = Items::new(alloc);
    for (scope, value) in members.iter() {
        let Some(more) = read_scope(alloc, write, scope.as_bytes(), value)? else {
            return Ok(None);
        };
        perms = append(perms, more)?;
    }
    Ok(Some(perms))
}

fn read_scope(
    alloc: Global,
    write: bool,
    scope: &[u8],
    value: &Value,
) -> Result<Option<Items<Perm>>, Memory>
    ensures { IfOk result (λ found. found ≡ spec.scope_of write scope.now (view value.now)) }
{
    match value {
        Value::Array(items) => read_texts(alloc, write, scope, None, items),
        Value::Object(members) => read_objects(alloc, write, scope, members),
        _ => Ok(None),
    }
}

fn read_objects(
    alloc: Global,
    write: bool,
    scope: &[u8],
    members: &Map<String, Value>,
) -> Result<Option<Items<Perm>>, Memory>
    ensures { IfOk result (λ found. found
        ≡ spec.objects write scope.now (members_view members.now.entries)) }
{
    let mut perms = Items::new(alloc);
    for (object, value) in members.iter() {
        let Some(more) = read_array(alloc, write, scope, object.as_bytes(), value)? else {
            return Ok(None);
        };
        perms = append(perms, more)?;
    }
    Ok(Some(perms))
}

fn read_array(
    alloc: Global,
    write: bool,
    scope: &[u8],
    object: &[u8],
    value: &Value,
) -> Result<Option<Items<Perm>>, Memory>
    ensures { IfOk result (λ found. found
        ≡ spec.array_of_texts write scope.now (Some object.now) (view value.now)) }
{
    match value {
        Value::Array(items) => read_texts(alloc, write, scope, Some(object), items),
        _ => Ok(None),
    }
}

/// The perms of texts, which are functions of the object, or objects where there is none.
fn read_texts(
    alloc: Global,
    write: bool,
    scope: &[u8],
    object: Option<&[u8]>,
    items: &Vec<Value>,
) -> Result<Option<Items<Perm>>, Memory>
    ensures { IfOk result (λ found. found ≡ spec.texts write scope.now
        (option_map (λ name. name.now) object.entry) (items_view items.now.items)) }
{
    let mut perms = Items::new(alloc);
    for item in items {
        let Value::String(text) = item else {
            return Ok(None);
        };
        perms.push(Perm {
            write,
            grant: grant_of_text(alloc, write, scope, object, text.as_bytes())?,
        })?;
    }
    Ok(Some(perms))
}

fn grant_of_text(
    alloc: Global,
    write: bool,
    scope: &[u8],
    object: Option<&[u8]>,
    text: &[u8],
) -> Result<Grant, Memory>
    ensures { IfOk result (λ grant. grant
        ≡ spec.grant_for write scope.now (option_map (λ name. name.now) object.entry) text.now) }
{
    match object {
        Some(object) => Grant::of(alloc, scope, object, text),
        None => Grant::of(alloc, scope, text, part_name(write)),
    }
}

fn part_name(write: bool) -> &'static [u8]
    ensures { result.now ≡ spec.part_name write }
{
    if write { b"write" } else { b"read" }
}

/// The items, and then the others.
fn append<T: Drop>(items: Items<T>, more: Items<T>) -> Result<Items<T>, Memory>
    ensures { IfOk result (λ all. all ≡ items ++ more) }
{
    let mut items = items.into_vec();
    let mut more = more.into_vec();
    items.append(&mut more)?;
    Ok(Items::from_vec(items))
}
