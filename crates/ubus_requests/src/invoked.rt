ghost use Rattle.std.specs.Prelude.{◌≡◌, ◌==◌, IfOk, Some, true, false, if◌then◌else◌};
ghost use Rattle.std.specs.Option.{option_copied};
ghost use Rattle.ubus_acl.specs.Acl.{may_call};
ghost use Rattle.ubus_table.specs.Table.{Table as TableRow, event_object, no_client, path_of};
ghost use Rattle.ubus_table.specs.Invoked as spec;
ghost use Rattle.ubus_table.specs.Frames.{is_set};
ghost use Rattle.ubus_table.specs.Calls as calls;
ghost use Rattle.ubus_send.specs.Fits.{fits};
ghost use Rattle.ubus_state.specs.State.{table_of};
ghost use Rattle.ubus_state.specs.Change.{changed, IsPossible};
ghost use Rattle.ubus_requests.specs.Plan.{Plans};

use crate::events::event;
use crate::{
    Plan, deny_if_asked, is_event_object, is_no_clients, is_open_for, is_too_long, refuse_if_asked,
};
use plane_io::{Items, Memory, Text};
use std::alloc::Global;
use ubus_frames::Frame;
use ubus_send::{is_set, local_args, passed_on, send_if_fits};
use ubus_state::{Bus, Change, call_on, path_of};
use ubus_table::{Client, LocalCall, Object};

/// What an INVOKE comes to.
pub fn invoke(bus: &Bus, client: &Client, request: &Frame) -> Result<Plan, Memory>
    ensures { IfOk result (λ plan. Plans
        (spec.invokes fits (table_of bus.now) client.now request.now)
        (table_of bus.now) plan) }
{
    match request.id {
        None => refuse_if_asked(bus.alloc, client.number, request, 2),
        Some(number) => invoke_named(bus, client, request, number),
    }
}

fn invoke_named(bus: &Bus, client: &Client, request: &Frame, number: u32) -> Result<Plan, Memory>
    ensures { IfOk result (λ plan. Plans
        (spec.goes fits (table_of bus.now) client.now request.now (spec.named_way fits
        (table_of bus.now) client.now request.now (Some number) request.now.method))
        (table_of bus.now) plan) }
{
    match &request.method {
        None => refuse_if_asked(bus.alloc, client.number, request, 2),
        Some(method) => {
            let object = bus.object_numbered(number);
            invoke_found(bus, client, request, method, object)
        }
    }
}

fn invoke_found(
    bus: &Bus,
    client: &Client,
    request: &Frame,
    method: &Text,
    object: Option<&Object>,
) -> Result<Plan, Memory>
    requires { request.now.method ≡ Some method.now }
    ensures { IfOk result (λ plan. Plans
        (spec.goes fits (table_of bus.now) client.now request.now (spec.object_way fits
        (table_of bus.now) client.now request.now method.now (option_copied object.entry)))
        (table_of bus.now) plan) }
{
    match object {
        None => refuse_if_asked(bus.alloc, client.number, request, 4),
        Some(object) => invoke_on(bus, client, request, method, object),
    }
}

fn invoke_on(
    bus: &Bus,
    client: &Client,
    request: &Frame,
    method: &Text,
    object: &Object,
) -> Result<Plan, Memory>
    requires { request.now.method ≡ Some method.now }
    ensures { IfOk result (λ plan. Plans
        (spec.goes fits (table_of bus.now) client.now request.now (spec.object_way fits
        (table_of bus.now) client.now request.now method.now (Some object.now)))
        (table_of bus.now) plan) }
{
    if is_event_object(object) {
        return event(bus, client, request, method.as_bytes());
    }
    invoke_other(bus, client, request, method, object)
}

/// An INVOKE of another object than the event object.
fn invoke_other(
    bus: &Bus,
    client: &Client,
    request: &Frame,
    method: &Text,
    object: &Object,
) -> Result<Plan, Memory>
    requires method { request.now.method ≡ Some method.now }
    requires other { (object.now.number == event_object.number) ≡ false }
    ensures { IfOk result (λ plan. Plans
        (spec.goes fits (table_of bus.now) client.now request.now (spec.object_way fits
        (table_of bus.now) client.now request.now method.now (Some object.now)))
        (table_of bus.now) plan) }
{
    if may_call(bus, client, object, method) {
        return invoke_allowed(bus, client, request, method, object);
    }
    deny_if_asked(
        bus.alloc,
        client.number,
        request,
        method.as_bytes(),
        path_of(object),
    )
}

/// The same, where the access list allows it.
fn invoke_allowed(
    bus: &Bus,
    client: &Client,
    request: &Frame,
    method: &Text,
    object: &Object,
) -> Result<Plan, Memory>
    requires method { request.now.method ≡ Some method.now }
    requires other { (object.now.number == event_object.number) ≡ false }
    requires allowed { may_call client.now.user client.now.group (path_of object.now)
        method.now (table_of bus.now).acl ≡ true }
    ensures { IfOk result (λ plan. Plans
        (spec.goes fits (table_of bus.now) client.now request.now (spec.object_way fits
        (table_of bus.now) client.now request.now method.now (Some object.now)))
        (table_of bus.now) plan) }
{
    if is_open_for(bus, client, request) {
        return refuse_if_asked(bus.alloc, client.number, request, 2);
    }
    open_call(bus, client, request, method, object)
}

fn may_call(bus: &Bus, client: &Client, object: &Object, method: &Text) -> bool
    ensures { result ≡ may_call client.now.user client.now.group (path_of object.now)
        method.now (table_of bus.now).acl }
{
    bus.acl.may_call(
        client.user.as_bytes(),
        client.group.as_bytes(),
        path_of(object),
        method.as_bytes(),
    )
}

fn open_call(
    bus: &Bus,
    client: &Client,
    request: &Frame,
    method: &Text,
    object: &Object,
) -> Result<Plan, Memory>
    requires { request.now.method ≡ Some method.now }
    ensures { IfOk result (λ plan. Plans
        (spec.goes fits (table_of bus.now) client.now request.now
        (spec.open_way fits client.now request.now object.now)) (table_of bus.now) plan) }
{
    if is_no_clients(object) {
        return hand_out(bus, client, request, method, object);
    }
    pass_on(bus, client, request, object)
}

fn hand_out(
    bus: &Bus,
    client: &Client,
    request: &Frame,
    method: &Text,
    object: &Object,
) -> Result<Plan, Memory>
    requires { request.now.method ≡ Some method.now }
    ensures { IfOk result (λ plan. Plans
        (spec.goes fits (table_of bus.now) client.now request.now
        (spec.hands_out object.now)) (table_of bus.now) plan) }
{
    let call = local_call(bus.alloc, client, request, method, object)?;
    Ok(Plan {
        change: Change::Opens(call_on(client, request, object.number)),
        out: Items::new(bus.alloc),
        call: Some(call),
    })
}

fn local_call(
    alloc: Global,
    client: &Client,
    request: &Frame,
    method: &Text,
    object: &Object,
) -> Result<LocalCall, Memory>
    requires { request.now.method ≡ Some method.now }
    ensures { IfOk result (λ call.
        call ≡ spec.local_call client.now request.now object.now) }
{
    let args = local_args(alloc, request)?;
    let name = method.copy()?;
    Ok(LocalCall {
        caller: client.number,
        seq: request.seq,
        object: object.number,
        method: name,
        args,
        no_reply: is_set(request.no_reply),
    })
}

/// A call is passed on to the owner of an object.
fn pass_on(bus: &Bus, client: &Client, request: &Frame, object: &Object) -> Result<Plan, Memory>
    requires { (object.now.owner == no_client) ≡ false }
    ensures { IfOk result (λ plan. Plans
        (spec.goes fits (table_of bus.now) client.now request.now
        (spec.open_way fits client.now request.now object.now)) (table_of bus.now) plan) }
{
    let frame = passed_on(bus.alloc, client, request, object.number)?;
    pass_on_frame(bus, client, request, object, frame)
}

fn pass_on_frame(
    bus: &Bus,
    client: &Client,
    request: &Frame,
    object: &Object,
    frame: Frame,
) -> Result<Plan, Memory>
    requires owned { (object.now.owner == no_client) ≡ false }
    requires frame { frame ≡ calls.passed_on client.now request.now object.now.number }
    ensures { IfOk result (λ plan. Plans
        (spec.goes fits (table_of bus.now) client.now request.now
        (spec.open_way fits client.now request.now object.now)) (table_of bus.now) plan) }
{
    if is_too_long(request, &frame) {
        return refuse_if_asked(bus.alloc, client.number, request, 9);
    }
    forward(bus, client, request, object, frame)
}

fn forward(
    bus: &Bus,
    client: &Client,
    request: &Frame,
    object: &Object,
    frame: Frame,
) -> Result<Plan, Memory>
    requires { frame ≡ calls.passed_on client.now request.now object.now.number }
    ensures { IfOk result (λ plan. Plans
        (spec.goes fits (table_of bus.now) client.now request.now
        (spec.forwards object.now)) (table_of bus.now) plan) }
{
    let mut out = Items::new(bus.alloc);
    send_if_fits(&mut out, object.owner, frame)?;
    Ok(Plan {
        change: opening(client, request, object.number),
        out,
        call: None,
    })
}

/// A message opens a call where a reply is asked for.
fn opening(client: &Client, request: &Frame, object: u32) -> Change
    ensures table { (table : TableRow) → table.place ≡ 0 → changed table result
        ≡ (if is_set request.now.no_reply then table
        else spec.with_call table (calls.call_on table client.now request.now object)) }
    ensures possible { (table : TableRow) → IsPossible table result }
{
    if is_set(request.no_reply) {
        return Change::Nothing;
    }
    Change::Opens(call_on(client, request, object))
}
