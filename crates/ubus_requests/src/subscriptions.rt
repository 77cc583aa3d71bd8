ghost use Rattle.std.specs.Prelude.{◌≡◌, ◌++◌, ◌&&◌, ◌==◌, ◌∷◌, [], not, Some, true, false, OnOk};
ghost use Rattle.std.specs.Prelude.{IfOk, if◌then◌else◌};
ghost use Rattle.ubus_acl.specs.Acl.{may_subscribe};
ghost use Rattle.std.specs.Option.{option_copied};
ghost use Rattle.ubus_table.specs.Table.{Table as TableRow, path_of, is_owned, no_client};
ghost use Rattle.ubus_table.specs.Refusal.{says as answers};
ghost use Rattle.ubus_table.specs.Frames.{answer};
ghost use Rattle.ubus_table.specs.Subscriptions as spec;
ghost use Rattle.ubus_send.specs.Fits.{fits};
ghost use Rattle.ubus_send.specs.Out.{out_of};
ghost use Rattle.ubus_state.specs.State.{table_of};
ghost use Rattle.ubus_requests.specs.Plan.{Plans};

use crate::conditions::{is_anothers, is_no_clients};
use crate::plan::{Plan, says};
use crate::refusing::{deny, refuse};
use plane_io::{Items, Memory};
use std::alloc::Global;
use ubus_frames::Frame;
use ubus_send::{Outgoing, active, answered, send_to};
use ubus_state::{Bus, Change, path_of};
use ubus_table::{Client, Object, Subscription};

/// What a SUBSCRIBE comes to.
pub fn subscribe(bus: &Bus, client: &Client, request: &Frame) -> Result<Plan, Memory>
    ensures { IfOk result (λ plan. Plans
        (spec.subscribes fits (table_of bus.now) client.now request.now)
        (table_of bus.now) plan) }
{
    match request.id {
        None => refuse(bus.alloc, client.number, request, 2),
        Some(subscriber) => subscribe_named(bus, client, request, subscriber),
    }
}

fn subscribe_named(
    bus: &Bus,
    client: &Client,
    request: &Frame,
    subscriber: u32,
) -> Result<Plan, Memory>
    ensures { IfOk result (λ plan. Plans (spec.subscribes_named fits (table_of bus.now)
        client.now request.now (Some subscriber) request.now.target) (table_of bus.now) plan) }
{
    match request.target {
        None => refuse(bus.alloc, client.number, request, 2),
        Some(target) => {
            let own = bus.object_numbered(subscriber);
            let other = bus.object_numbered(target);
            subscribe_found(bus, client, request, own, other)
        }
    }
}

fn subscribe_found(
    bus: &Bus,
    client: &Client,
    request: &Frame,
    own: Option<&Object>,
    other: Option<&Object>,
) -> Result<Plan, Memory>
    ensures { IfOk result (λ plan. Plans (spec.subscribes_found fits (table_of bus.now)
        client.now request.now (option_copied own.entry) (option_copied other.entry))
        (table_of bus.now) plan) }
{
    match own {
        None => refuse(bus.alloc, client.number, request, 4),
        Some(own) => subscribe_own_found(bus, client, request, own, other),
    }
}

fn subscribe_own_found(
    bus: &Bus,
    client: &Client,
    request: &Frame,
    own: &Object,
    other: Option<&Object>,
) -> Result<Plan, Memory>
    ensures { IfOk result (λ plan. Plans (spec.subscribes_found fits (table_of bus.now)
        client.now request.now (Some own.now) (option_copied other.entry))
        (table_of bus.now) plan) }
{
    match other {
        None => refuse(bus.alloc, client.number, request, 4),
        Some(other) => subscribe_both(bus, client, request, own, other),
    }
}

fn subscribe_both(
    bus: &Bus,
    client: &Client,
    request: &Frame,
    own: &Object,
    other: &Object,
) -> Result<Plan, Memory>
    ensures { IfOk result (λ plan. Plans (spec.subscribes_both fits (table_of bus.now)
        client.now request.now own.now other.now) (table_of bus.now) plan) }
{
    if is_no_clients(other) {
        return refuse(bus.alloc, client.number, request, 4);
    }
    subscribe_own(bus, client, request, own, other)
}

/// The same, where the target is a client's.
fn subscribe_own(
    bus: &Bus,
    client: &Client,
    request: &Frame,
    own: &Object,
    other: &Object,
) -> Result<Plan, Memory>
    requires { (other.now.owner == no_client) ≡ false }
    ensures { IfOk result (λ plan. Plans (spec.subscribes_both fits (table_of bus.now)
        client.now request.now own.now other.now) (table_of bus.now) plan) }
{
    if is_anothers(own, client) {
        return deny(
            bus.alloc,
            client.number,
            request,
            b"subscribe",
            path_of(own),
        );
    }
    subscribe_allowed(bus, client, request, own, other)
}

/// The same, where the subscriber is the client's too.
fn subscribe_allowed(
    bus: &Bus,
    client: &Client,
    request: &Frame,
    own: &Object,
    other: &Object,
) -> Result<Plan, Memory>
    requires target { (other.now.owner == no_client) ≡ false }
    requires own { not (own.now.owner == client.now.number) ≡ false }
    ensures { IfOk result (λ plan. Plans (spec.subscribes_both fits (table_of bus.now)
        client.now request.now own.now other.now) (table_of bus.now) plan) }
{
    if may_subscribe(bus, client, other) {
        let subscription = Subscription {
            subscriber: own.number,
            target: other.number,
        };
        return subscribed(bus, client, request, subscription);
    }
    deny(
        bus.alloc,
        client.number,
        request,
        b"subscribe",
        path_of(other),
    )
}

fn may_subscribe(bus: &Bus, client: &Client, target: &Object) -> bool
    ensures { result ≡ may_subscribe client.now.user client.now.group
        (path_of target.now) (table_of bus.now).acl }
{
    bus.acl.may_subscribe(
        client.user.as_bytes(),
        client.group.as_bytes(),
        path_of(target),
    )
}

fn subscribed(
    bus: &Bus,
    client: &Client,
    request: &Frame,
    subscription: Subscription,
) -> Result<Plan, Memory>
    ensures { IfOk result (λ plan. Plans
        (spec.subscribed fits (table_of bus.now) client.now request.now subscription)
        (table_of bus.now) plan) }
{
    if is_kept(bus, subscription) {
        return answer_alone(bus.alloc, client, request);
    }
    subscribed_anew(bus, client, request, subscription)
}

/// A STATUS 0, and nothing changes.
fn answer_alone(alloc: Global, client: &Client, request: &Frame) -> Result<Plan, Memory>
    ensures { (table : TableRow) → IfOk result (λ plan. Plans
        (answers table (answer client.now.number request.now 0 ∷ [])) table plan) }
{
    let out = answered(alloc, client.number, request, 0)?;
    Ok(says(out))
}

/// A subscription that is new.
fn subscribed_anew(
    bus: &Bus,
    client: &Client,
    request: &Frame,
    subscription: Subscription,
) -> Result<Plan, Memory>
    requires { spec.has_subscription (table_of bus.now).subscriptions subscription ≡ false }
    ensures { IfOk result (λ plan. Plans
        (spec.subscribed fits (table_of bus.now) client.now request.now subscription)
        (table_of bus.now) plan) }
{
    let mut out = answered(bus.alloc, client.number, request, 0)?;
    tell_first(bus, &mut out, subscription.target)?;
    Ok(Plan {
        change: Change::Subscribes(subscription),
        out,
        call: None,
    })
}

/// Whether there is this subscription.
fn is_kept(bus: &Bus, subscription: Subscription) -> bool
    ensures { result ≡ spec.has_subscription (table_of bus.now).subscriptions subscription }
{
    bus.subscriptions.contains(subscription)
}

/// Where nobody is subscribed to an object, its owner is told that somebody is.
fn tell_first(bus: &Bus, out: &mut Items<Outgoing>, target: u32) -> Result<(), Memory>
    ensures { OnOk result (out.new ≡ out.old ++ out_of
        (if spec.is_alone (table_of bus.now).subscriptions target
        then spec.activity fits (table_of bus.now) target true else [])) }
{
    if !bus.subscriptions.is_alone(target) {
        return Ok(());
    }
    tell_activity(bus, out, target, true)
}

/// Where nobody else is subscribed to an object, its owner is told that nobody is any more.
fn tell_last(bus: &Bus, out: &mut Items<Outgoing>, subscription: Subscription) -> Result<(), Memory>
    ensures { OnOk result (out.new ≡ out.old ++ out_of
        (if spec.is_alone (spec.without (table_of bus.now).subscriptions subscription)
        subscription.target
        then spec.activity fits (table_of bus.now) subscription.target false else [])) }
{
    if !bus.subscriptions.is_alone_without(subscription) {
        return Ok(());
    }
    tell_activity(bus, out, subscription.target, false)
}

/// Tells the owner of an object that its first subscriber came, or that its last one went.
fn tell_activity(
    bus: &Bus,
    out: &mut Items<Outgoing>,
    target: u32,
    flag: bool,
) -> Result<(), Memory>
    ensures { OnOk result (out.new
        ≡ out.old ++ out_of (spec.activity fits (table_of bus.now) target flag)) }
{
    send_to(out, bus.owner_of(target), active(target, flag))
}

/// What an UNSUBSCRIBE comes to.
pub fn unsubscribe(bus: &Bus, client: &Client, request: &Frame) -> Result<Plan, Memory>
    ensures { IfOk result (λ plan. Plans
        (spec.unsubscribes fits (table_of bus.now) client.now request.now)
        (table_of bus.now) plan) }
{
    match request.id {
        None => refuse(bus.alloc, client.number, request, 2),
        Some(subscriber) => unsubscribe_named(bus, client, request, subscriber),
    }
}

fn unsubscribe_named(
    bus: &Bus,
    client: &Client,
    request: &Frame,
    subscriber: u32,
) -> Result<Plan, Memory>
    ensures { IfOk result (λ plan. Plans (spec.unsubscribes_named fits (table_of bus.now)
        client.now request.now (Some subscriber) request.now.target) (table_of bus.now) plan) }
{
    match request.target {
        None => refuse(bus.alloc, client.number, request, 2),
        Some(target) => { unsubscribed(bus, client, request, Subscription { subscriber, target }) }
    }
}

fn unsubscribed(
    bus: &Bus,
    client: &Client,
    request: &Frame,
    subscription: Subscription,
) -> Result<Plan, Memory>
    ensures { IfOk result (λ plan. Plans
        (spec.unsubscribed fits (table_of bus.now) client.now request.now subscription)
        (table_of bus.now) plan) }
{
    if is_subscribed(bus, client.number, subscription) {
        return unsubscribed_own(bus, client, request, subscription);
    }
    refuse(bus.alloc, client.number, request, 4)
}

/// A subscription of an object of the client.
fn unsubscribed_own(
    bus: &Bus,
    client: &Client,
    request: &Frame,
    subscription: Subscription,
) -> Result<Plan, Memory>
    requires { (spec.has_subscription (table_of bus.now).subscriptions subscription
        && is_owned (table_of bus.now) subscription.subscriber client.now.number) ≡ true }
    ensures { IfOk result (λ plan. Plans
        (spec.unsubscribed fits (table_of bus.now) client.now request.now subscription)
        (table_of bus.now) plan) }
{
    let mut out = answered(bus.alloc, client.number, request, 0)?;
    tell_last(bus, &mut out, subscription)?;
    Ok(Plan {
        change: Change::Unsubscribes(subscription),
        out,
        call: None,
    })
}

/// Whether there is this subscription, of an object of the client.
fn is_subscribed(bus: &Bus, client: u32, subscription: Subscription) -> bool
    ensures { result
        ≡ (spec.has_subscription (table_of bus.now).subscriptions subscription
        && is_owned (table_of bus.now) subscription.subscriber client) }
{
    bus.subscriptions.contains(subscription) && bus.is_owned(subscription.subscriber, client)
}
