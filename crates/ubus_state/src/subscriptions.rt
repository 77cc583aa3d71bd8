ghost use Rattle.std.specs.Prelude.{◌≡◌};
ghost use Rattle.ubus_table.specs.Subscriptions as spec;
ghost use Rattle.ubus_table.specs.Objects.{untouched};

use ubus_table::Subscription;

/// Ends a subscription.
pub(crate) fn drop_subscription(subscriptions: &mut Vec<Subscription>, gone: Subscription)
    ensures { subscriptions.new.items ≡ spec.without subscriptions.old.items gone }
{
    subscriptions.retain(|s| !(gone.subscriber == s.subscriber && gone.target == s.target));
}

/// Ends the subscriptions of an object and those to it.
pub(crate) fn drop_touching(subscriptions: &mut Vec<Subscription>, number: u32)
    ensures { subscriptions.new.items ≡ untouched number subscriptions.old.items }
{
    subscriptions.retain(|s| !(s.subscriber == number || s.target == number));
}
