ghost use Rattle.std.specs.Prelude.{◌≡◌, ◌++◌, ◌==◌, ◌&&◌, [], false, Some, OnOk, IfOk};
ghost use Rattle.std.specs.Prelude.{if◌then◌else◌, not, map, filter};
ghost use Rattle.std.specs.List.{flat_map};
ghost use Rattle.ubus_table.specs.Table.{owner_of};
ghost use Rattle.ubus_table.specs.Frames as frames;
ghost use Rattle.ubus_table.specs.Frames.{to_owner};
ghost use Rattle.ubus_table.specs.Objects as spec;
ghost use Rattle.ubus_table.specs.Subscriptions.{is_alone, activity};
ghost use Rattle.ubus_table.specs.Clients as clients;
ghost use Rattle.ubus_send.specs.Fits.{fits};
ghost use Rattle.ubus_send.specs.Out.{out_of, outgoing};
ghost use Rattle.ubus_state.specs.Among.{calls_but};
ghost use Rattle.ubus_state.specs.Calls.{call_of, calls_of};
ghost use Rattle.ubus_state.specs.Leaving as left;
ghost use Rattle.ubus_state.specs.State.{table_of};

use crate::{Bus, OpenCall, SubscriptionRows, drop_calls_on, drop_registered_among, forget_calls};
use plane_io::{Items, Memory};
use std::alloc::Global;
use ubus_send::{Outgoing, active, call_status, gone as farewell, send_to};

/// What the leaving of a client comes to, before it is done.
#[derive(Drop)]
pub struct Leaving {
    /// The objects that leave.
    pub numbers: Vec<u32>,
    /// The subscriptions that are left.
    pub subscriptions: SubscriptionRows,
    pub out: Items<Outgoing>,
}

impl Bus {
    /// Tells all whom the leaving of an object concerns.
    pub fn tell_left(&self, out: &mut Items<Outgoing>, number: u32) -> Result<(), Memory>
        ensures { OnOk result (out.new
            ≡ out.old ++ out_of (spec.object_left fits (table_of self.now) number).sent) }
    {
        self.tell_left_of(out, &[], &self.subscriptions, &self.calls.rows, number)
    }

    /// The same, where these objects have left, and these subscriptions and calls are there.
    #[tactic(auto, using(ubus_send::proofs::OutLemmas::out_more))]
    fn tell_left_of(
        &self,
        out: &mut Items<Outgoing>,
        gone: &[u32],
        subscriptions: &SubscriptionRows,
        calls: &[OpenCall],
        number: u32,
    ) -> Result<(), Memory>
        ensures { OnOk result (out.new ≡ out.old ++ out_of (spec.object_left fits
            (left.partly (table_of self.now) gone.now subscriptions.now (calls_of calls.now))
            number).sent) }
    {
        tell_ended(out, calls, number)?;
        self.tell_subscribers(out, gone, subscriptions, number)?;
        self.tell_targets(out, gone, subscriptions, number)
    }

    fn tell_subscribers(
        &self,
        out: &mut Items<Outgoing>,
        gone: &[u32],
        subscriptions: &SubscriptionRows,
        number: u32,
    ) -> Result<(), Memory>
        ensures { OnOk result (out.new ≡ out.old ++ out_of (spec.farewells fits
            (left.partly (table_of self.now) gone.now subscriptions.now []) number)) }
    {
        let subscribers = subscriptions.subscribers_of(self.alloc, number)?;
        self.tell_gone(out, gone, &subscribers, number)
    }

    #[tactic(auto, using(ubus_send::proofs::OutLemmas::out_more))]
    fn tell_gone(
        &self,
        out: &mut Items<Outgoing>,
        gone: &[u32],
        subscribers: &[u32],
        number: u32,
    ) -> Result<(), Memory>
        ensures { OnOk result (out.new ≡ out.old ++ out_of (flat_map
            (λ subscriber. to_owner fits
            (owner_of (left.partly (table_of self.now) gone.now [] []) subscriber)
            (frames.gone subscriber number)) subscribers.now)) }
    {
        for subscriber in subscribers {
            let owner = self.owner_left(gone, *subscriber);
            send_to(out, owner, farewell(*subscriber, number))?;
        }
        Ok(())
    }

    fn tell_targets(
        &self,
        out: &mut Items<Outgoing>,
        gone: &[u32],
        subscriptions: &SubscriptionRows,
        number: u32,
    ) -> Result<(), Memory>
        ensures { OnOk result (out.new ≡ out.old ++ out_of (spec.endings fits
            (left.partly (table_of self.now) gone.now subscriptions.now []) number)) }
    {
        let targets = subscriptions.targets_of(self.alloc, number)?;
        self.tell_last(out, gone, subscriptions, number, &targets)
    }

    #[tactic(auto, using(ubus_send::proofs::OutLemmas::out_more))]
    fn tell_last(
        &self,
        out: &mut Items<Outgoing>,
        gone: &[u32],
        subscriptions: &SubscriptionRows,
        number: u32,
        targets: &[u32],
    ) -> Result<(), Memory>
        ensures { OnOk result (out.new ≡ out.old ++ out_of (flat_map
            (λ target. if not (target == number)
            && is_alone (spec.untouched number subscriptions.now) target
            then activity fits (left.partly (table_of self.now) gone.now subscriptions.now [])
            target false else []) targets.now)) }
    {
        for target in targets {
            self.tell_target(out, gone, subscriptions, number, *target)?;
        }
        Ok(())
    }

    fn tell_target(
        &self,
        out: &mut Items<Outgoing>,
        gone: &[u32],
        subscriptions: &SubscriptionRows,
        number: u32,
        target: u32,
    ) -> Result<(), Memory>
        ensures { OnOk result (out.new ≡ out.old ++ out_of
            (if not (target == number) && is_alone (spec.untouched number subscriptions.now) target
            then activity fits (left.partly (table_of self.now) gone.now subscriptions.now [])
            target false else [])) }
    {
        if !is_last(subscriptions, number, target) {
            return Ok(());
        }
        send_to(out, self.owner_left(gone, target), active(target, false))
    }

    /// What the leaving of a client comes to.
    pub fn leaving(&self, client: u32) -> Result<Leaving, Memory>
        ensures { IfOk result (λ found. left.Leaves (table_of self.now) client found) }
    {
        let numbers = self.numbers_of(client)?;
        let mut subscriptions = self.subscriptions.copy(self.alloc)?;
        let mut calls = Vec::from_slice(self.alloc, &self.calls.rows)?;
        forget_calls(&mut calls, client);
        let mut out = Items::new(self.alloc);
        for place in 0..numbers.len() {
            let number = numbers[place];
            self.tell_left_of(&mut out, &numbers[..place], &subscriptions, &calls, number)?;
            subscriptions.drop_touching(number);
            drop_calls_on(&mut calls, number);
        }
        Ok(Leaving {
            numbers,
            subscriptions,
            out,
        })
    }

    /// A client leaves, as was found out before.
    pub fn leave(&mut self, client: u32, leaving: Leaving) -> Items<Outgoing>
        ensures table { table_of self.new ≡ left.partly
            (clients.without_client (table_of self.old) client) leaving.numbers.items
            leaving.subscriptions (calls_but leaving.numbers.items
            (clients.without_client (table_of self.old) client).calls) }
        ensures out { result ≡ leaving.out }
    {
        let Leaving {
            numbers,
            subscriptions,
            out,
        } = leaving;
        self.clients.remove(client);
        self.objects.remove_among(&numbers);
        drop_registered_among(&mut self.registrations, &numbers);
        self.subscriptions = subscriptions;
        self.calls.forget(client);
        self.calls.drop_among(&numbers);
        out
    }

    /// The numbers of a client's objects, as they were added.
    fn numbers_of(&self, client: u32) -> Result<Vec<u32>, Memory>
        ensures { IfOk result (λ numbers. numbers.items
            ≡ clients.numbers_of (table_of self.now) client) }
    {
        self.objects.numbers_of(self.alloc, client)
    }
}

/// The open calls on an object that leaves get STATUS 10.
fn tell_ended(out: &mut Items<Outgoing>, calls: &[OpenCall], number: u32) -> Result<(), Memory>
    ensures { OnOk result (out.new ≡ out.old ++ out_of
        (map (spec.told (Some 10)) (filter (spec.is_on number) (calls_of calls.now)))) }
{
    for call in calls {
        if call.object == number {
            out.push(told(call, Some(10)))?;
        }
    }
    Ok(())
}

/// Whether the subscription of an object that leaves was the last one to another object.
fn is_last(subscriptions: &SubscriptionRows, number: u32, target: u32) -> bool
    ensures { result ≡ (not (target == number)
        && is_alone (spec.untouched number subscriptions.now) target) }
{
    target != number && subscriptions.is_alone_untouched(number, target)
}

/// The caller is sent the STATUS of its call.
pub fn told(call: &OpenCall, status: Option<u32>) -> Outgoing
    ensures { result ≡ outgoing (spec.told status (call_of call.now)) }
{
    Outgoing {
        client: call.caller,
        frame: call_status(call.seq, call.object, status),
    }
}
