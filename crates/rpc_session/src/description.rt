ghost use Rattle.std.specs.Prelude.{◌≡◌, IfOk, OnOk};
ghost use Rattle.plane_words.specs.InOrder.{put_in};
ghost use Rattle.rpc_session.specs.Values.{byte_order};
ghost use Rattle.rpc_session.specs.Description as spec;

use crate::arguments::id_text;
use crate::by_name::in_order;
use crate::{Grant, Session};
use blob_codec::{Attr, Blob, copy_attrs};
use plane_io::{Memory, Text};
use sqlite_items::Items;
use std::alloc::Global;
use std::collections::BTreeSet;

/// What `create` and `list` tell of a session: its grants, its values, the seconds that are left,
/// its timeout and its id.
pub(crate) fn describe(alloc: Global, session: &Session, now: u64) -> Result<Items<Attr>, Memory>
    ensures { IfOk result (λ told. told ≡ spec.description now session.now) }
{
    let acls = acls(alloc, session.grants.as_slice())?;
    let values = in_order(alloc, copy_attrs(alloc, session.values.as_slice())?)?;
    let id = id_text(alloc, session.id)?;
    let mut told = Items::new(alloc);
    told.push(named(alloc, b"acls", Blob::Table(acls))?)?;
    told.push(named(alloc, b"data", Blob::Table(values))?)?;
    told.push(named(alloc, b"expires", number(session.seconds_left(now)))?)?;
    told.push(named(alloc, b"timeout", number(session.timeout))?)?;
    told.push(named(alloc, b"ubus_rpc_session", Blob::Str(id))?)?;
    Ok(told)
}

/// A value by name.
pub(crate) fn named(alloc: Global, name: &[u8], value: Blob) -> Result<Attr, Memory>
    ensures { IfOk result (λ attr. attr ≡ spec.named name.now value) }
{
    let name = Text::from_bytes(alloc, name)?;
    Ok(Attr { name, value })
}

/// A number, of 32 bits where it fits.
fn number(number: u32) -> Blob
    ensures { result ≡ spec.number number }
{
    match i32::try_from(number) {
        Ok(small) => Blob::I32(small),
        Err(_) => Blob::I64(i64::from(number)),
    }
}

/// The grants: by scope and object the functions.
fn acls(alloc: Global, grants: &[Grant]) -> Result<Items<Attr>, Memory>
    ensures { IfOk result (λ told. told ≡ spec.acls grants.now) }
{
    let mut told = Items::new(alloc);
    for scope in scopes(alloc, grants)? {
        let objects = object_items(alloc, grants, scope.as_bytes())?;
        told.push(named(alloc, scope.as_bytes(), Blob::Table(objects))?)?;
    }
    Ok(told)
}

fn object_items(alloc: Global, grants: &[Grant], scope: &[u8]) -> Result<Items<Attr>, Memory>
    ensures { IfOk result (λ told. told ≡ spec.object_items grants.now scope.now) }
{
    let mut told = Items::new(alloc);
    for object in objects(alloc, grants, scope)? {
        let functions = functions(alloc, grants, scope, object.as_bytes())?;
        told.push(named(alloc, object.as_bytes(), Blob::Array(functions))?)?;
    }
    Ok(told)
}

fn functions(
    alloc: Global,
    grants: &[Grant],
    scope: &[u8],
    object: &[u8],
) -> Result<Items<Attr>, Memory>
    ensures { IfOk result (λ told. told ≡ spec.functions grants.now scope.now object.now) }
{
    let mut told = Items::new(alloc);
    for grant in grants {
        if grant.scope.as_bytes() == scope && grant.object.as_bytes() == object {
            let function = grant.function.copy()?;
            told.push(named(alloc, b"", Blob::Str(function))?)?;
        }
    }
    Ok(told)
}

/// The scopes in byte order, each once.
fn scopes(alloc: Global, grants: &[Grant]) -> Result<BTreeSet<Text>, Memory>
    ensures { IfOk result (λ scopes. scopes.keys ≡ spec.scopes grants.now) }
{
    let mut scopes = BTreeSet::new(alloc);
    for grant in grants {
        add_text(&mut scopes, &grant.scope)?;
    }
    Ok(scopes)
}

/// The objects of a scope in byte order, each once.
fn objects(alloc: Global, grants: &[Grant], scope: &[u8]) -> Result<BTreeSet<Text>, Memory>
    ensures { IfOk result (λ objects. objects.keys ≡ spec.objects grants.now scope.now) }
{
    let mut objects = BTreeSet::new(alloc);
    for grant in grants {
        if grant.scope.as_bytes() == scope {
            add_text(&mut objects, &grant.object)?;
        }
    }
    Ok(objects)
}

fn add_text(texts: &mut BTreeSet<Text>, text: &Text) -> Result<(), Memory>
    ensures { OnOk result (texts.new.keys ≡ put_in byte_order text.now texts.old.keys) }
{
    let _new = texts.insert(text.copy()?)?;
    Ok(())
}
