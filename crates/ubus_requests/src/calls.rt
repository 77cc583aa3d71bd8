ghost use Rattle.std.specs.Prelude.{◌≡◌, ◌++◌, ◌∷◌, ◌<◌, ◌==◌, [], not, false, Some, OnOk, IfOk};
ghost use Rattle.std.specs.Prelude.{IfSome, length, remove};
ghost use Rattle.std.specs.Option.{option_copied};
ghost use Rattle.std.specs.List.{find, flat_map, position};
ghost use Rattle.ubus_table.specs.Frames as frames;
ghost use Rattle.ubus_table.specs.Frames.{to_owner, where_fits};
ghost use Rattle.ubus_table.specs.Objects.{told};
ghost use Rattle.ubus_table.specs.Refusal.{says as answers};
ghost use Rattle.ubus_table.specs.Table.{Table as TableRow, owner_of};
ghost use Rattle.ubus_table.specs.Calls as spec;
ghost use Rattle.ubus_send.specs.Fits.{fits};
ghost use Rattle.ubus_state.specs.declared.calls.OpenCall.{OpenCall as CallRow};
ghost use Rattle.ubus_state.specs.Calls.{call_of, calls_of};
ghost use Rattle.ubus_send.specs.Out.{out_of};
ghost use Rattle.ubus_state.specs.State.{table_of};
ghost use Rattle.ubus_requests.specs.Plan.{Plans, notified_to};

use crate::conditions::{is_anothers, is_opened, is_taken_sequence};
use crate::plan::{Plan, says};
use crate::refusing::{deny_if_asked, refuse_if_asked};
use blob_codec::{Attr, copy_attrs};
use plane_io::{Items, Memory};
use std::alloc::Global;
use ubus_frames::Frame;
use ubus_send::{Outgoing, call_data, is_set, passed_on, send_if_fits, send_to, subscribers_told};
use ubus_state::{Bus, Change, OpenCall, call_on, is_of, path_of, told};
use ubus_table::{Client, Object};

/// What a NOTIFY comes to.
pub fn notify(bus: &Bus, client: &Client, request: &Frame) -> Result<Plan, Memory>
    ensures { IfOk result (λ plan. Plans
        (spec.notifies fits (table_of bus.now) client.now request.now)
        (table_of bus.now) plan) }
{
    match request.id {
        None => refuse_if_asked(bus.alloc, client.number, request, 2),
        Some(number) => notify_named(bus, client, request, number),
    }
}

fn notify_named(bus: &Bus, client: &Client, request: &Frame, number: u32) -> Result<Plan, Memory>
    ensures { IfOk result (λ plan. Plans (spec.notifies_named fits (table_of bus.now)
        client.now request.now (Some number) request.now.method) (table_of bus.now) plan) }
{
    match &request.method {
        None => refuse_if_asked(bus.alloc, client.number, request, 2),
        Some(_method) => notify_found(bus, client, request, bus.object_numbered(number)),
    }
}

fn notify_found(
    bus: &Bus,
    client: &Client,
    request: &Frame,
    object: Option<&Object>,
) -> Result<Plan, Memory>
    ensures { IfOk result (λ plan. Plans (spec.notifies_found fits (table_of bus.now)
        client.now request.now (option_copied object.entry)) (table_of bus.now) plan) }
{
    match object {
        None => refuse_if_asked(bus.alloc, client.number, request, 4),
        Some(object) => notify_of(bus, client, request, object),
    }
}

fn notify_of(bus: &Bus, client: &Client, request: &Frame, object: &Object) -> Result<Plan, Memory>
    ensures { IfOk result (λ plan. Plans (spec.notifies_found fits (table_of bus.now)
        client.now request.now (Some object.now)) (table_of bus.now) plan) }
{
    if is_anothers(object, client) {
        return deny_if_asked(
            bus.alloc,
            client.number,
            request,
            b"notify",
            path_of(object),
        );
    }
    notify_own(bus, client, request, object)
}

/// The same, where the object is the client's.
fn notify_own(bus: &Bus, client: &Client, request: &Frame, object: &Object) -> Result<Plan, Memory>
    requires { not (object.now.owner == client.now.number) ≡ false }
    ensures { IfOk result (λ plan. Plans (spec.notifies_found fits (table_of bus.now)
        client.now request.now (Some object.now)) (table_of bus.now) plan) }
{
    if is_taken_sequence(bus, client, request) {
        return refuse_if_asked(bus.alloc, client.number, request, 2);
    }
    notified(bus, client, request, object.number)
}

fn notified(bus: &Bus, client: &Client, request: &Frame, object: u32) -> Result<Plan, Memory>
    ensures { IfOk result (λ plan. Plans
        (spec.notified fits (table_of bus.now) client.now request.now object)
        (table_of bus.now) plan) }
{
    let subscribers = bus.subscriptions.subscribers_of(bus.alloc, object)?;
    notify_all(bus, client, request, object, &subscribers)
}

fn notify_all(
    bus: &Bus,
    client: &Client,
    request: &Frame,
    object: u32,
    subscribers: &[u32],
) -> Result<Plan, Memory>
    ensures { IfOk result (λ plan. Plans
        (notified_to fits (table_of bus.now) client.now request.now object subscribers.now)
        (table_of bus.now) plan) }
{
    let mut calls = Vec::new(bus.alloc);
    let mut out = told_subscribers(bus.alloc, client, request, object, subscribers)?;
    pass_on_all(bus, &mut out, &mut calls, client, request, subscribers)?;
    Ok(Plan {
        change: Change::OpensAll(calls),
        out,
        call: None,
    })
}

/// Passes a message on to the owners of objects, where it fits, and opens a call for each where a
/// reply is asked for.
#[tactic(auto, using(crate::proofs::OpenedLemmas::more_opened))]
fn pass_on_all(
    bus: &Bus,
    out: &mut Items<Outgoing>,
    calls: &mut Vec<OpenCall>,
    client: &Client,
    request: &Frame,
    objects: &[u32],
) -> Result<(), Memory>
    ensures out { OnOk result (out.new ≡ out.old ++ out_of (flat_map
        (λ object. to_owner fits (owner_of (table_of bus.now) object)
        (spec.passed_on client.now request.now object)) objects.now)) }
    ensures calls { OnOk result (calls_of calls.new.items ≡ calls_of calls.old.items
        ++ spec.opened fits (table_of bus.now) client.now request.now objects.now) }
{
    for object in objects {
        pass_on(bus, out, calls, client, request, *object)?;
    }
    Ok(())
}

fn pass_on(
    bus: &Bus,
    out: &mut Items<Outgoing>,
    calls: &mut Vec<OpenCall>,
    client: &Client,
    request: &Frame,
    object: u32,
) -> Result<(), Memory>
    ensures out { OnOk result (out.new ≡ out.old ++ out_of
        (to_owner fits (owner_of (table_of bus.now) object)
        (spec.passed_on client.now request.now object))) }
    ensures calls { OnOk result (calls_of calls.new.items ≡ calls_of calls.old.items
        ++ spec.opened fits (table_of bus.now) client.now request.now (object ∷ [])) }
{
    let frame = passed_on(bus.alloc, client, request, object)?;
    open_if_reached(calls, client, request, object, &frame)?;
    send_to(out, bus.owner_of(object), frame)?;
    Ok(())
}

/// Where the call stands that a DATA or a STATUS answers.
fn answered(bus: &Bus, client: u32, frame: &Frame) -> Option<usize>
    ensures place { result ≡ position (spec.is_answered (table_of bus.now) client frame.now)
        (table_of bus.now).calls }
    ensures within { IfSome result (λ place. place < length bus.now.calls.rows.items) }
{
    match answered_call(bus, client, frame) {
        Some(call) => bus.calls.place_of(call.number),
        None => None,
    }
}

/// The call that a DATA or a STATUS answers: of several the one that was opened first.
fn answered_call(bus: &Bus, client: u32, frame: &Frame) -> Option<OpenCall>
    ensures { result ≡ find (λ (call : CallRow).
        spec.is_answered (table_of bus.now) client frame.now (call_of call))
        bus.now.calls.rows.items }
{
    for call in bus.calls.named(frame.peer, frame.seq) {
        if is_answered(bus, client, frame, call) {
            return Some(*call);
        }
    }
    None
}

/// Whether the call is on an object of the client, and the peer, the sequence and OBJID, where
/// there is one, name it.
fn is_answered(bus: &Bus, client: u32, frame: &Frame, call: &OpenCall) -> bool
    ensures { result ≡ spec.is_answered (table_of bus.now) client frame.now (call_of call.now) }
{
    call.caller == frame.peer
        && call.seq == frame.seq
        && (is_of(frame.id, call) && bus.is_owned(call.object, client))
}

/// What a DATA comes to.
pub fn pass_data(bus: &Bus, client: u32, frame: &Frame) -> Result<Items<Outgoing>, Memory>
    ensures { IfOk result (λ out. out
        ≡ out_of (spec.passes_data fits (table_of bus.now) client frame.now).sent) }
{
    match answered_call(bus, client, frame) {
        None => Ok(Items::new(bus.alloc)),
        Some(call) => data_of(bus.alloc, call, frame),
    }
}

fn data_of(alloc: Global, call: OpenCall, frame: &Frame) -> Result<Items<Outgoing>, Memory>
    ensures { IfOk result (λ out. out ≡ out_of (where_fits fits call.caller
        (frames.call_data call.seq call.object frame.now.payload))) }
{
    let payload = copy_payload(alloc, &frame.payload)?;
    let mut out = Items::new(alloc);
    send_if_fits(
        &mut out,
        call.caller,
        call_data(call.seq, call.object, payload),
    )?;
    Ok(out)
}

/// What a STATUS comes to.
pub fn pass_status(bus: &Bus, client: u32, frame: &Frame) -> Result<Plan, Memory>
    ensures { IfOk result (λ plan. Plans
        (spec.passes_status (table_of bus.now) client frame.now) (table_of bus.now) plan) }
{
    match answered(bus, client, frame) {
        None => Ok(says(Items::new(bus.alloc))),
        Some(place) => {
            let call = bus.calls.rows[place];
            status_of(bus.alloc, call, place, frame.status)
        }
    }
}

fn status_of(
    alloc: Global,
    call: OpenCall,
    place: usize,
    status: Option<u32>,
) -> Result<Plan, Memory>
    ensures { (table : TableRow) → IfOk result (λ plan. Plans (answers (record table
        { calls = remove table.calls place }) (told status (call_of call) ∷ [])) table plan) }
{
    let mut out = Items::new(alloc);
    out.push(told(&call, status))?;
    Ok(Plan {
        change: Change::Closes(place),
        out,
        call: None,
    })
}

/// The caller of a NOTIFY is told who is subscribed, where it asks for a reply.
fn told_subscribers(
    alloc: Global,
    client: &Client,
    request: &Frame,
    object: u32,
    subscribers: &[u32],
) -> Result<Items<Outgoing>, Memory>
    ensures { IfOk result (λ out. out ≡ out_of
        (spec.told_subscribers fits client.now request.now object subscribers.now)) }
{
    let mut out = Items::new(alloc);
    if is_set(request.no_reply) {
        return Ok(out);
    }
    let told = sqlite_items::Items::from_slice(alloc, subscribers)?;
    send_if_fits(
        &mut out,
        client.number,
        subscribers_told(request, object, told),
    )?;
    Ok(out)
}

/// A message opens a call on an object, where it is passed on and a reply is asked for.
fn open_if_reached(
    calls: &mut Vec<OpenCall>,
    client: &Client,
    request: &Frame,
    object: u32,
    frame: &Frame,
) -> Result<(), Memory>
    ensures { (table : TableRow) → table.place ≡ 0
        → frame.now ≡ spec.passed_on client.now request.now object
        → OnOk result (calls_of calls.new.items ≡ calls_of calls.old.items
        ++ spec.opened fits table client.now request.now (object ∷ [])) }
{
    if is_opened(request, frame) {
        return add_call(calls, call_on(client, request, object));
    }
    Ok(())
}

fn add_call(calls: &mut Vec<OpenCall>, call: OpenCall) -> Result<(), Memory>
    ensures { OnOk result (calls_of calls.new.items
        ≡ calls_of calls.old.items ++ call_of call ∷ []) }
{
    calls.push(call)?;
    Ok(())
}

fn copy_payload(
    alloc: Global,
    payload: &Option<sqlite_items::Items<Attr>>,
) -> Result<Option<sqlite_items::Items<Attr>>, Memory>
    ensures { IfOk result (λ copy. copy ≡ payload.now) }
{
    match payload {
        Some(attrs) => Ok(Some(copy_attrs(alloc, attrs.as_slice())?)),
        None => Ok(None),
    }
}
