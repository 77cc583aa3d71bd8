//! Subscriptions, found by target and by subscriber.
ghost use Rattle.std.specs.Prelude.{◌≡◌, ◌==◌, ◌&&◌, ◌++◌, ◌∷◌, [], IfOk, OnOk, OnErr, not};
ghost use Rattle.std.specs.List.{list_any};
ghost use Rattle.ubus_table.specs.declared.rows.Subscription.{Subscription as SubscriptionRow};
ghost use Rattle.ubus_table.specs.Subscriptions as spec;
ghost use Rattle.ubus_table.specs.Objects.{touches, untouched};

use crate::pairs::{has_pair, has_pair_but, pair, seconds_of};
use crate::subscriptions::{drop_subscription, drop_touching};
use plane_io::Memory;
use std::alloc::Global;
use std::collections::BTreeSet;
use std::marker::Model;
use ubus_table::Subscription;

/// Subscriptions as they came, found by target and by subscriber. Contracts see the list.
#[derive(Drop)]
pub struct SubscriptionRows {
    rows: Vec<Subscription>,
    by_target: BTreeSet<(u64, u32)>,
    by_subscriber: BTreeSet<(u64, u32)>,
}

impl Model for SubscriptionRows {
    ghost use Rattle.std.specs.Prelude.{List};
    ghost use Rattle.ubus_table.specs.declared.rows.Subscription.{Subscription as Row};

    ghost Value = { List Row };

    ghost use Rattle.ubus_state.specs.SubscriptionRows.{subscriptions_in, HasBoth};

    ghost view = { subscriptions_in };

    ghost invariant = { HasBoth };
}

impl SubscriptionRows {
    /// No subscriptions yet.
    pub fn new(alloc: Global) -> SubscriptionRows
        ensures { result ≡ [] }
    {
        SubscriptionRows {
            rows: Vec::new(alloc),
            by_target: BTreeSet::new(alloc),
            by_subscriber: BTreeSet::new(alloc),
        }
    }

    /// The same subscriptions once more.
    pub fn copy(&self, alloc: Global) -> Result<SubscriptionRows, Memory>
        ensures { IfOk result (λ copy. copy ≡ self.now) }
    {
        Ok(SubscriptionRows {
            rows: Vec::from_slice(alloc, &self.rows)?,
            by_target: self.by_target.clone()?,
            by_subscriber: self.by_subscriber.clone()?,
        })
    }

    /// Whether there is this subscription.
    pub fn contains(&self, subscription: Subscription) -> bool
        ensures { result ≡ spec.has_subscription self.now subscription }
    {
        let from = pair(subscription.subscriber, subscription.target);
        self.by_subscriber.contains(&from)
    }

    /// Whether nobody is subscribed to the object.
    pub fn is_alone(&self, target: u32) -> bool
        ensures { result ≡ spec.is_alone self.now target }
    {
        !has_pair(&self.by_target, target)
    }

    /// Whether nobody is subscribed to the target but by this subscription.
    pub fn is_alone_without(&self, subscription: Subscription) -> bool
        ensures { result
            ≡ spec.is_alone (spec.without self.now subscription) subscription.target }
    {
        !self.has_subscriber_but(subscription.target, subscription.subscriber)
    }

    /// Whether nobody is subscribed to the object but an object that leaves.
    pub fn is_alone_untouched(&self, number: u32, target: u32) -> bool
        ensures { result ≡ spec.is_alone (untouched number self.now) target }
    {
        target == number || !self.has_subscriber_but(target, number)
    }

    fn has_subscriber_but(&self, target: u32, number: u32) -> bool
        ensures { result ≡ list_any (λ (s : SubscriptionRow).
            s.target == target && not (s.subscriber == number)) self.now }
    {
        has_pair_but(&self.by_target, target, number)
    }

    /// The subscribers of an object, by rising number.
    pub fn subscribers_of(&self, alloc: Global, target: u32) -> Result<Vec<u32>, Memory>
        ensures { IfOk result (λ numbers. numbers.items ≡ spec.subscribers_of self.now target) }
    {
        seconds_of(alloc, &self.by_target, target)
    }

    /// What an object is subscribed to, by rising number.
    pub fn targets_of(&self, alloc: Global, subscriber: u32) -> Result<Vec<u32>, Memory>
        ensures { IfOk result (λ numbers. numbers.items ≡ spec.targets_of self.now subscriber) }
    {
        seconds_of(alloc, &self.by_subscriber, subscriber)
    }

    /// Adds a subscription. Where there is not enough memory, all stays.
    pub fn push(&mut self, subscription: Subscription) -> Result<(), Memory>
        ensures ok { OnOk result (self.new ≡ self.old ++ subscription ∷ []) }
        ensures err { OnErr result (self.new ≡ self.old) }
    {
        let to = pair(subscription.target, subscription.subscriber);
        let from = pair(subscription.subscriber, subscription.target);
        self.rows.reserve(1)?;
        self.by_target.insert(to)?;
        let Ok(_) = self.by_subscriber.insert(from) else {
            self.by_target.remove(&to);
            return Err(Memory);
        };
        self.rows.push_reserved(subscription);
        Ok(())
    }

    /// Ends a subscription.
    pub fn remove(&mut self, gone: Subscription)
        ensures { self.new ≡ spec.without self.old gone }
    {
        let to = pair(gone.target, gone.subscriber);
        let from = pair(gone.subscriber, gone.target);
        drop_subscription(&mut self.rows, gone);
        self.by_target.remove(&to);
        self.by_subscriber.remove(&from);
    }

    /// Ends the subscriptions of an object and those to it.
    pub fn drop_touching(&mut self, number: u32)
        ensures { self.new ≡ untouched number self.old }
    {
        if self.is_touched(number) {
            self.drop_touched(number);
        }
    }

    fn is_touched(&self, number: u32) -> bool
        ensures { result ≡ list_any (touches number) self.now }
    {
        has_pair(&self.by_subscriber, number) || has_pair(&self.by_target, number)
    }

    fn drop_touched(&mut self, number: u32)
        ensures { self.new ≡ untouched number self.old }
    {
        drop_touching(&mut self.rows, number);
        self.by_target
            .retain(|pair| !(pair.1 == number || pair.0 == u64::from(number)));
        self.by_subscriber
            .retain(|pair| !(pair.0 == u64::from(number) || pair.1 == number));
    }
}
