ghost use Rattle.std.specs.Prelude.{◌≡◌, ◌++◌, ◌==◌, [], IfOk, OnOk, Some, true, false, not};
ghost use Rattle.std.specs.Prelude.{unwrap_or, map, filter, codes};
ghost use Rattle.std.specs.Option.{option_copied};
ghost use Rattle.std.specs.List.{list_any, flat_map};
ghost use Rattle.ubus_acl.specs.Acl.{may_listen, may_send};
ghost use Rattle.ubus_table.specs.Table as table;
ghost use Rattle.ubus_table.specs.Table.{Table as TableRow};
ghost use Rattle.ubus_table.specs.declared.rows.Client.{Client as ClientRow};
ghost use Rattle.ubus_table.specs.declared.rows.Registration.{Registration as RegistrationRow};
ghost use Rattle.ubus_table.specs.Frames.{to_owner};
ghost use Rattle.ubus_table.specs.Arguments as arguments;
ghost use Rattle.ubus_table.specs.Events as spec;
ghost use Rattle.ubus_table.specs.Invoked.{goes, event_way, done, registration, sends};
ghost use Rattle.ubus_send.specs.Fits.{fits};
ghost use Rattle.ubus_send.specs.Out.{out_of};
ghost use Rattle.ubus_state.specs.State.{table_of};
ghost use Rattle.ubus_requests.specs.Plan.{Plans};

use crate::{Plan, deny_if_asked, is_anothers, refuse_if_asked, says};
use blob_codec::Attr;
use plane_io::{Items, Memory, Text};
use std::alloc::Global;
use ubus_acl::fits_front;
use ubus_frames::Frame;
use ubus_send::{
    Outgoing, event_frame, is_set, number_argument, send_answer, send_to, table_argument,
    text_argument,
};
use ubus_state::{Bus, Change, ordered_numbers, path_of};
use ubus_table::{Client, Object, Registration};

/// An INVOKE on the event object.
pub(crate) fn event(
    bus: &Bus,
    client: &Client,
    request: &Frame,
    method: &[u8],
) -> Result<Plan, Memory>
    ensures { IfOk result (λ plan. Plans
        (goes fits (table_of bus.now) client.now request.now (event_way
        (spec.event_of (table_of bus.now) client.now method.now
        (unwrap_or request.now.payload [])))) (table_of bus.now) plan) }
{
    if is_register(method) {
        return register(bus, client, request);
    }
    event_other(bus, client, request, method)
}

/// The same for another method than `register`.
fn event_other(bus: &Bus, client: &Client, request: &Frame, method: &[u8]) -> Result<Plan, Memory>
    requires { table.same_text method.now (codes "register") ≡ false }
    ensures { IfOk result (λ plan. Plans
        (goes fits (table_of bus.now) client.now request.now (event_way
        (spec.event_of (table_of bus.now) client.now method.now
        (unwrap_or request.now.payload [])))) (table_of bus.now) plan) }
{
    if is_send(method) {
        return send_event(bus, client, request);
    }
    refuse_if_asked(bus.alloc, client.number, request, 1)
}

fn is_register(method: &[u8]) -> bool
    ensures { result ≡ table.same_text method.now (codes "register") }
{
    method == b"register".as_slice()
}

fn is_send(method: &[u8]) -> bool
    ensures { result ≡ table.same_text method.now (codes "send") }
{
    method == b"send".as_slice()
}

fn register(bus: &Bus, client: &Client, request: &Frame) -> Result<Plan, Memory>
    ensures { IfOk result (λ plan. Plans
        (goes fits (table_of bus.now) client.now request.now (event_way
        (spec.registers_with (table_of bus.now) client.now
        (arguments.number_argument (codes "object") (unwrap_or request.now.payload []))
        (arguments.text_argument (codes "pattern") (unwrap_or request.now.payload [])))))
        (table_of bus.now) plan) }
{
    let args = values_of(request);
    let object = number_argument(args, b"object");
    let pattern = text_argument(args, b"pattern");
    register_with(bus, client, request, object, pattern)
}

fn register_with(
    bus: &Bus,
    client: &Client,
    request: &Frame,
    object: Option<i64>,
    pattern: Option<&[u8]>,
) -> Result<Plan, Memory>
    ensures { IfOk result (λ plan. Plans
        (goes fits (table_of bus.now) client.now request.now (event_way
        (spec.registers_with (table_of bus.now) client.now object (option_copied pattern.entry))))
        (table_of bus.now) plan) }
{
    match object {
        None => refuse_if_asked(bus.alloc, client.number, request, 2),
        Some(number) => register_by(bus, client, request, number, pattern),
    }
}

fn register_by(
    bus: &Bus,
    client: &Client,
    request: &Frame,
    number: i64,
    pattern: Option<&[u8]>,
) -> Result<Plan, Memory>
    ensures { IfOk result (λ plan. Plans
        (goes fits (table_of bus.now) client.now request.now (event_way
        (spec.registers_with (table_of bus.now) client.now (Some number)
        (option_copied pattern.entry)))) (table_of bus.now) plan) }
{
    match pattern {
        None => refuse_if_asked(bus.alloc, client.number, request, 2),
        Some(pattern) => {
            let object = object_at(bus, number);
            register_found(bus, client, request, object, pattern)
        }
    }
}

fn register_found(
    bus: &Bus,
    client: &Client,
    request: &Frame,
    object: Option<&Object>,
    pattern: &[u8],
) -> Result<Plan, Memory>
    ensures { IfOk result (λ plan. Plans
        (goes fits (table_of bus.now) client.now request.now (event_way
        (spec.registers_found (table_of bus.now) client.now pattern.now
        (option_copied object.entry))))
        (table_of bus.now) plan) }
{
    match object {
        None => refuse_if_asked(bus.alloc, client.number, request, 4),
        Some(object) => register_for(bus, client, request, object, pattern),
    }
}

fn register_for(
    bus: &Bus,
    client: &Client,
    request: &Frame,
    object: &Object,
    pattern: &[u8],
) -> Result<Plan, Memory>
    ensures { IfOk result (λ plan. Plans
        (goes fits (table_of bus.now) client.now request.now (event_way
        (spec.registers_found (table_of bus.now) client.now pattern.now (Some object.now))))
        (table_of bus.now) plan) }
{
    if is_anothers(object, client) {
        return deny_if_asked(
            bus.alloc,
            client.number,
            request,
            b"register",
            path_of(object),
        );
    }
    register_own(bus, client, request, object, pattern)
}

/// The same, where the object is the client's.
fn register_own(
    bus: &Bus,
    client: &Client,
    request: &Frame,
    object: &Object,
    pattern: &[u8],
) -> Result<Plan, Memory>
    requires { not (object.now.owner == client.now.number) ≡ false }
    ensures { IfOk result (λ plan. Plans
        (goes fits (table_of bus.now) client.now request.now (event_way
        (spec.registers_found (table_of bus.now) client.now pattern.now (Some object.now))))
        (table_of bus.now) plan) }
{
    if may_listen(bus, client, pattern) {
        return registered(bus, client, request, object.number, pattern);
    }
    deny_if_asked(bus.alloc, client.number, request, b"listen", pattern)
}

fn registered(
    bus: &Bus,
    client: &Client,
    request: &Frame,
    object: u32,
    pattern: &[u8],
) -> Result<Plan, Memory>
    ensures { IfOk result (λ plan. Plans
        (goes fits (table_of bus.now) client.now request.now
        (registration (record { object = object; pattern = pattern.now })))
        (table_of bus.now) plan) }
{
    if is_registered(bus, object, pattern) {
        return registered_before(bus, client, request, object, pattern);
    }
    registered_anew(bus, client, request, object, pattern)
}

/// A registration that is there.
fn registered_before(
    bus: &Bus,
    client: &Client,
    request: &Frame,
    object: u32,
    pattern: &[u8],
) -> Result<Plan, Memory>
    requires { list_any (spec.same_registration (record { object = object; pattern = pattern.now }))
        (table_of bus.now).registrations ≡ true }
    ensures { IfOk result (λ plan. Plans
        (goes fits (table_of bus.now) client.now request.now
        (registration (record { object = object; pattern = pattern.now })))
        (table_of bus.now) plan) }
{
    let out = done(bus.alloc, client.number, request)?;
    Ok(says(out))
}

/// A registration that is new.
fn registered_anew(
    bus: &Bus,
    client: &Client,
    request: &Frame,
    object: u32,
    pattern: &[u8],
) -> Result<Plan, Memory>
    requires { list_any (spec.same_registration (record { object = object; pattern = pattern.now }))
        (table_of bus.now).registrations ≡ false }
    ensures { IfOk result (λ plan. Plans
        (goes fits (table_of bus.now) client.now request.now
        (registration (record { object = object; pattern = pattern.now })))
        (table_of bus.now) plan) }
{
    let out = done(bus.alloc, client.number, request)?;
    let pattern = Text::from_bytes(bus.alloc, pattern)?;
    Ok(Plan {
        change: Change::Registers(Registration { object, pattern }),
        out,
        call: None,
    })
}

fn object_at(bus: &Bus, number: i64) -> Option<&Object>
    ensures { option_copied result ≡ spec.object_at (table_of bus.now) number }
{
    match u64::try_from(number) {
        Ok(number) => bus.object_of(number),
        Err(_) => None,
    }
}

fn may_listen(bus: &Bus, client: &Client, pattern: &[u8]) -> bool
    ensures { result ≡ may_listen client.now.user client.now.group pattern.now
        (table_of bus.now).acl }
{
    bus.acl
        .may_listen(client.user.as_bytes(), client.group.as_bytes(), pattern)
}

fn is_registered(bus: &Bus, object: u32, pattern: &[u8]) -> bool
    ensures { result ≡ list_any
        (spec.same_registration (record { object = object; pattern = pattern.now }))
        (table_of bus.now).registrations }
{
    bus.registrations
        .iter()
        .any(|r| object == r.object && pattern == r.pattern.as_bytes())
}

fn send_event(bus: &Bus, client: &Client, request: &Frame) -> Result<Plan, Memory>
    ensures { IfOk result (λ plan. Plans
        (goes fits (table_of bus.now) client.now request.now (event_way
        (spec.sends_with (table_of bus.now) client.now
        (arguments.text_argument (codes "id") (unwrap_or request.now.payload []))
        (arguments.table_argument (codes "data") (unwrap_or request.now.payload [])))))
        (table_of bus.now) plan) }
{
    let args = values_of(request);
    let id = text_argument(args, b"id");
    let values = table_argument(args, b"data");
    send_with(bus, client, request, id, values)
}

fn send_with(
    bus: &Bus,
    client: &Client,
    request: &Frame,
    id: Option<&[u8]>,
    values: Option<&[Attr]>,
) -> Result<Plan, Memory>
    ensures { IfOk result (λ plan. Plans
        (goes fits (table_of bus.now) client.now request.now (event_way
        (spec.sends_with (table_of bus.now) client.now (option_copied id.entry)
        (option_copied values.entry)))) (table_of bus.now) plan) }
{
    match id {
        None => refuse_if_asked(bus.alloc, client.number, request, 2),
        Some(id) => send_values(bus, client, request, id, values),
    }
}

fn send_values(
    bus: &Bus,
    client: &Client,
    request: &Frame,
    id: &[u8],
    values: Option<&[Attr]>,
) -> Result<Plan, Memory>
    ensures { IfOk result (λ plan. Plans
        (goes fits (table_of bus.now) client.now request.now (event_way
        (spec.sends_with (table_of bus.now) client.now (Some id.now) (option_copied values.entry))))
        (table_of bus.now) plan) }
{
    match values {
        None => refuse_if_asked(bus.alloc, client.number, request, 2),
        Some(values) => send_allowed(bus, client, request, id, values),
    }
}

fn send_allowed(
    bus: &Bus,
    client: &Client,
    request: &Frame,
    id: &[u8],
    values: &[Attr],
) -> Result<Plan, Memory>
    ensures { IfOk result (λ plan. Plans
        (goes fits (table_of bus.now) client.now request.now (event_way
        (spec.sends_with (table_of bus.now) client.now (Some id.now) (Some values.now))))
        (table_of bus.now) plan) }
{
    if may_send(bus, client, id) {
        return send_to_all(bus, client, request, id, values);
    }
    deny_if_asked(bus.alloc, client.number, request, b"send", id)
}

fn send_to_all(
    bus: &Bus,
    client: &Client,
    request: &Frame,
    id: &[u8],
    values: &[Attr],
) -> Result<Plan, Memory>
    ensures { IfOk result (λ plan. Plans
        (goes fits (table_of bus.now) client.now request.now (sends id.now values.now))
        (table_of bus.now) plan) }
{
    let mut out = events_to(bus, client.number, id, values)?;
    send_done(&mut out, client.number, request)?;
    Ok(says(out))
}

/// The event as it is sent to all who listen.
fn events_to(bus: &Bus, sender: u32, id: &[u8], values: &[Attr]) -> Result<Items<Outgoing>, Memory>
    ensures { IfOk result (λ out. out
        ≡ out_of (spec.events_sent fits (table_of bus.now) sender id.now values.now)) }
{
    let listeners = listeners(bus, sender, id)?;
    let mut out = Items::new(bus.alloc);
    tell_listeners(bus, &mut out, &listeners, id, values)?;
    Ok(out)
}

fn may_send(bus: &Bus, client: &Client, id: &[u8]) -> bool
    ensures { result ≡ may_send client.now.user client.now.group id.now
        (table_of bus.now).acl }
{
    bus.acl
        .may_send(client.user.as_bytes(), client.group.as_bytes(), id)
}

/// The objects to which an event goes, by rising number, each once.
fn listeners(bus: &Bus, sender: u32, id: &[u8]) -> Result<Vec<u32>, Memory>
    ensures { IfOk result (λ numbers. numbers.items
        ≡ spec.listeners (table_of bus.now) sender id.now) }
{
    let numbers = listening(bus, sender, id)?;
    ordered_numbers(bus.alloc, &numbers)
}

fn listening(bus: &Bus, sender: u32, id: &[u8]) -> Result<Vec<u32>, Memory>
    ensures { IfOk result (λ numbers. numbers.items
        ≡ map (λ (r : RegistrationRow). r.object)
        (filter (spec.is_sent (table_of bus.now) sender id.now)
        (table_of bus.now).registrations)) }
{
    let mut numbers = Vec::new(bus.alloc);
    for registration in &bus.registrations {
        if is_sent(bus, sender, id, registration) {
            numbers.push(registration.object)?;
        }
    }
    Ok(numbers)
}

fn is_sent(bus: &Bus, sender: u32, id: &[u8], registration: &Registration) -> bool
    ensures { result ≡ spec.is_sent (table_of bus.now) sender id.now registration.now }
{
    fits_front(registration.pattern.as_bytes(), id) && !bus.is_owned(registration.object, sender)
}

#[tactic(auto, using(ubus_send::proofs::OutLemmas::out_more))]
fn tell_listeners(
    bus: &Bus,
    out: &mut Items<Outgoing>,
    listeners: &[u32],
    id: &[u8],
    values: &[Attr],
) -> Result<(), Memory>
    ensures { OnOk result (out.new ≡ out.old ++ out_of (flat_map
        (λ object. to_owner fits (table.owner_of (table_of bus.now) object)
        (spec.event_frame id.now values.now object)) listeners.now)) }
{
    for object in listeners {
        let frame = event_frame(bus.alloc, id, values, *object)?;
        send_to(out, bus.owner_of(*object), frame)?;
    }
    Ok(())
}

/// The values of a frame's data, empty where it has none.
fn values_of(frame: &Frame) -> &[Attr]
    ensures { result.now ≡ unwrap_or frame.now.payload [] }
{
    match &frame.payload {
        Some(attrs) => attrs.as_slice(),
        None => &[],
    }
}

/// The STATUS 0 of the event object, where a reply is asked for.
fn send_done(out: &mut Items<Outgoing>, client: u32, request: &Frame) -> Result<(), Memory>
    ensures { (table : TableRow) (row : ClientRow) → row.number ≡ client → OnOk result
        (out.new ≡ out.old ++ out_of (done table row request.now)) }
{
    if is_set(request.no_reply) {
        return Ok(());
    }
    send_answer(out, client, request, 0)
}

fn done(alloc: Global, client: u32, request: &Frame) -> Result<Items<Outgoing>, Memory>
    ensures { (table : TableRow) (row : ClientRow) → row.number ≡ client → IfOk result (λ out.
        out ≡ out_of (done table row request.now)) }
{
    let mut out = Items::new(alloc);
    send_done(&mut out, client, request)?;
    Ok(out)
}
