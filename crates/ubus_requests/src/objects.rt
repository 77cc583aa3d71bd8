ghost use Rattle.std.specs.Prelude.{◌≡◌, ◌≤◌, ◌||◌, ◌∷◌, [], IfOk, Some, true, false, unwrap_or};
ghost use Rattle.std.specs.Option.{option_copied};
ghost use Rattle.ubus_table.specs.Table as table;
ghost use Rattle.ubus_table.specs.Frames.{with_data};
ghost use Rattle.ubus_table.specs.Objects as spec;
ghost use Rattle.ubus_send.specs.Fits.{fits};
ghost use Rattle.ubus_send.specs.Out.{out_of};
ghost use Rattle.ubus_state.specs.Paths.{IsFree};
ghost use Rattle.ubus_state.specs.State.{table_of};
ghost use Rattle.ubus_requests.specs.Plan.{Plans};

use crate::conditions::is_clients;
use crate::plan::Plan;
use crate::refusing::{deny, refuse};
use blob_codec::{Attr, copy_attrs};
use plane_io::{Items, Memory, Text};
use std::alloc::Global;
use ubus_frames::Frame;
use ubus_send::{Outgoing, object_data, one_frame, send_with_data};
use ubus_state::{Bus, Change, path_of};
use ubus_table::{Client, Object};

/// How many objects of clients there may be.
pub const MOST_OBJECTS: usize = 4096;

const LAST_NUMBER: u64 = 4_294_967_295;

/// What an ADD_OBJECT comes to.
pub fn add(bus: &Bus, client: &Client, request: &Frame) -> Result<Plan, Memory>
    ensures { IfOk result (λ plan. Plans
        (spec.adds fits (table_of bus.now) client.now request.now) (table_of bus.now) plan) }
{
    if is_refused(bus, request) {
        return refuse(bus.alloc, client.number, request, 2);
    }
    add_good(bus, client, request)
}

/// The same, where path and type are good.
fn add_good(bus: &Bus, client: &Client, request: &Frame) -> Result<Plan, Memory>
    requires good { (spec.is_refused_path (table_of bus.now) request.now.path
        || spec.is_unknown_type (table_of bus.now) request.now.objtype) ≡ false }
    ensures { IfOk result (λ plan. Plans
        (spec.adds fits (table_of bus.now) client.now request.now) (table_of bus.now) plan) }
{
    if may_add(bus, client, &request.path) {
        return add_allowed(bus, client, request);
    }
    let path = bytes_of(&request.path);
    deny(bus.alloc, client.number, request, b"publish", path)
}

/// The same, where the access list allows it too.
fn add_allowed(bus: &Bus, client: &Client, request: &Frame) -> Result<Plan, Memory>
    requires good { (spec.is_refused_path (table_of bus.now) request.now.path
        || spec.is_unknown_type (table_of bus.now) request.now.objtype) ≡ false }
    requires allowed { spec.may_add (table_of bus.now) client.now request.now.path ≡ true }
    ensures { IfOk result (λ plan. Plans
        (spec.adds fits (table_of bus.now) client.now request.now) (table_of bus.now) plan) }
{
    if has_all_objects(bus) {
        return refuse(bus.alloc, client.number, request, 9);
    }
    added(bus, client, request)
}

/// Whether the path is empty or taken, or the type is one that no object has.
fn is_refused(bus: &Bus, request: &Frame) -> bool
    ensures { result ≡ (spec.is_refused_path (table_of bus.now) request.now.path
        || spec.is_unknown_type (table_of bus.now) request.now.objtype) }
{
    is_refused_path(bus, &request.path) || is_unknown_type(bus, request.objtype)
}

fn is_refused_path(bus: &Bus, path: &Option<Text>) -> bool
    ensures { result ≡ spec.is_refused_path (table_of bus.now) path.now }
{
    match path {
        Some(path) => path.as_bytes().is_empty() || bus.is_taken(path),
        None => false,
    }
}

fn is_unknown_type(bus: &Bus, objtype: Option<u32>) -> bool
    ensures { result ≡ spec.is_unknown_type (table_of bus.now) objtype }
{
    match objtype {
        Some(objtype) => bus.of_type(objtype).is_none(),
        None => false,
    }
}

fn may_add(bus: &Bus, client: &Client, path: &Option<Text>) -> bool
    ensures { result ≡ spec.may_add (table_of bus.now) client.now path.now }
{
    match path {
        Some(path) => bus.acl.may_publish(
            client.user.as_bytes(),
            client.group.as_bytes(),
            path.as_bytes(),
        ),
        None => true,
    }
}

/// Whether there are 4,096 objects, or their numbers are used up.
fn has_all_objects(bus: &Bus) -> bool
    ensures full { result ≡ spec.is_full (table_of bus.now) }
    ensures room { result ≡ false → (table_of bus.now).next_object ≤ LAST_NUMBER }
{
    bus.objects.rows.len() >= MOST_OBJECTS || bus.objects.next > LAST_NUMBER
}

fn added(bus: &Bus, client: &Client, request: &Frame) -> Result<Plan, Memory>
    requires last { (table_of bus.now).next_object ≤ LAST_NUMBER }
    requires free { IsFree request.now.path (table_of bus.now).objects }
    ensures { IfOk result (λ plan. Plans
        (spec.added fits (table_of bus.now) client.now request.now
        (spec.new_object (table_of bus.now) client.now request.now)) (table_of bus.now) plan) }
{
    let object = new_object(bus, client, request)?;
    let out = told_of_new(bus.alloc, client, request, &object)?;
    Ok(Plan {
        change: Change::Adds(object),
        out,
        call: None,
    })
}

/// The client is told of its new object.
fn told_of_new(
    alloc: Global,
    client: &Client,
    request: &Frame,
    object: &Object,
) -> Result<Items<Outgoing>, Memory>
    ensures { IfOk result (λ out. out ≡ out_of (with_data fits client.now.number request.now
        (spec.object_data request.now object.now.number (Some object.now.objtype) ∷ []))) }
{
    let frames = one_frame(
        alloc,
        object_data(request, object.number, Some(object.objtype)),
    )?;
    let mut out = Items::new(alloc);
    send_with_data(&mut out, client.number, request, frames)?;
    Ok(out)
}

fn new_object(bus: &Bus, client: &Client, request: &Frame) -> Result<Object, Memory>
    requires { (table_of bus.now).next_object ≤ LAST_NUMBER }
    ensures { IfOk result (λ object. object
        ≡ spec.new_object (table_of bus.now) client.now request.now) }
{
    let number = bus.objects.next as u32;
    Ok(Object {
        number,
        owner: client.number,
        path: copy_path(&request.path)?,
        objtype: request.objtype.unwrap_or(number),
        signature: new_signature(bus, request)?,
    })
}

/// The signature of a new object: its type's, or for a new type the one that is given.
fn new_signature(bus: &Bus, request: &Frame) -> Result<sqlite_items::Items<Attr>, Memory>
    ensures { IfOk result (λ signature. signature
        ≡ spec.new_signature (table_of bus.now) request.now request.now.objtype) }
{
    match request.objtype {
        Some(objtype) => signature_of(bus, objtype),
        None => copy_signature(bus.alloc, &request.signature),
    }
}

fn signature_of(bus: &Bus, objtype: u32) -> Result<sqlite_items::Items<Attr>, Memory>
    ensures { IfOk result (λ signature. signature
        ≡ spec.signature_in (table.of_type (table_of bus.now) objtype)) }
{
    match bus.of_type(objtype) {
        Some(object) => copy_attrs(bus.alloc, object.signature.as_slice()),
        None => Ok(sqlite_items::Items::new(bus.alloc)),
    }
}

/// What a REMOVE_OBJECT comes to.
pub fn remove(bus: &Bus, client: &Client, request: &Frame) -> Result<Plan, Memory>
    ensures { IfOk result (λ plan. Plans
        (spec.removes fits (table_of bus.now) client.now request.now) (table_of bus.now) plan) }
{
    match request.id {
        None => refuse(bus.alloc, client.number, request, 2),
        Some(number) => remove_found(bus, client, request, bus.object_numbered(number)),
    }
}

fn remove_found(
    bus: &Bus,
    client: &Client,
    request: &Frame,
    object: Option<&Object>,
) -> Result<Plan, Memory>
    ensures { IfOk result (λ plan. Plans
        (spec.removes_found fits (table_of bus.now) client.now request.now
        (option_copied object.entry))
        (table_of bus.now) plan) }
{
    match object {
        None => refuse(bus.alloc, client.number, request, 4),
        Some(object) => remove_object(bus, client, request, object),
    }
}

fn remove_object(
    bus: &Bus,
    client: &Client,
    request: &Frame,
    object: &Object,
) -> Result<Plan, Memory>
    ensures { IfOk result (λ plan. Plans
        (spec.removes_found fits (table_of bus.now) client.now request.now (Some object.now))
        (table_of bus.now) plan) }
{
    if is_clients(object, client) {
        return removed(bus, client, request, object);
    }
    deny(
        bus.alloc,
        client.number,
        request,
        b"remove",
        path_of(object),
    )
}

fn removed(bus: &Bus, client: &Client, request: &Frame, object: &Object) -> Result<Plan, Memory>
    ensures { IfOk result (λ plan. Plans
        (spec.removed fits (table_of bus.now) client.now request.now object.now)
        (table_of bus.now) plan) }
{
    let frames = told_of_removed(bus, request, object)?;
    let mut out = Items::new(bus.alloc);
    bus.tell_left(&mut out, object.number)?;
    send_with_data(&mut out, client.number, request, frames)?;
    Ok(Plan {
        change: Change::Removes(object.number),
        out,
        call: None,
    })
}

fn told_of_removed(bus: &Bus, request: &Frame, object: &Object) -> Result<Vec<Frame>, Memory>
    ensures { IfOk result (λ frames. frames.items ≡ spec.object_data request.now object.now.number
        (spec.lost_type (spec.without_object (table_of bus.now) object.now.number)
        object.now.objtype) ∷ []) }
{
    let lost = lost_type(bus, object.number, object.objtype);
    one_frame(bus.alloc, object_data(request, object.number, lost))
}

/// The type of an object that leaves, where no other object has it.
fn lost_type(bus: &Bus, number: u32, objtype: u32) -> Option<u32>
    ensures { result
        ≡ spec.lost_type (spec.without_object (table_of bus.now) number) objtype }
{
    if bus.is_type_kept(number, objtype) {
        return None;
    }
    Some(objtype)
}

fn bytes_of(path: &Option<Text>) -> &[u8]
    ensures { result.now ≡ unwrap_or path.now [] }
{
    match path {
        Some(path) => path.as_bytes(),
        None => b"",
    }
}

fn copy_path(path: &Option<Text>) -> Result<Option<Text>, Memory>
    ensures { IfOk result (λ copy. copy ≡ path.now) }
{
    match path {
        Some(path) => Ok(Some(path.copy()?)),
        None => Ok(None),
    }
}

fn copy_signature(
    alloc: Global,
    signature: &Option<sqlite_items::Items<Attr>>,
) -> Result<sqlite_items::Items<Attr>, Memory>
    ensures { IfOk result (λ copy. copy ≡ unwrap_or signature.now []) }
{
    match signature {
        Some(attrs) => copy_attrs(alloc, attrs.as_slice()),
        None => Ok(sqlite_items::Items::new(alloc)),
    }
}
