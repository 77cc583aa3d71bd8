//! What an interface gives, counted once more or once less in a table of gifts.
ghost use Rattle.std.specs.Prelude.{◌≡◌, ◌≤◌, ◌+◌, ◌^◌, ◌∷◌, [], fold, map, length, Contains, Some};
ghost use Rattle.std.specs.Prelude.{true, option_to_list};
ghost use Rattle.std.specs.List.{filter_map, slice_get};
ghost use Rattle.std.specs.Option.{option_copied};
ghost use Rattle.kern_model.specs.declared.object.Object.{Object};
ghost use Rattle.kern_model.specs.declared.object.Object.TheVariants as object;
ghost use Rattle.net_rules.specs.Want as want;
ghost use Rattle.net_wants.specs.Given.{answer_route, route_on};
ghost use Rattle.net_reach.specs.Reach.{IsReachOf};
ghost use Rattle.given_objects.specs.Gifts.{has_place, givers_of};
ghost use Rattle.given_objects.specs.Changes.{given_once_more, given_once_less};
ghost use Rattle.net_looks.specs.Look.{facts_at};
ghost use Rattle.net_looks.specs.Giving as spec;

use crate::look::Look;
use given_objects::GivenObjects;
use kern_model::{DevName, Object, RouteObject};
use net_addr::{Addr, Cidr, V4, V6};
use net_rows::{InterfaceRow, RouteRow};
use net_rules::{Answer, AnswerRoute};
use net_view::is_static;
use net_wants::MAIN_TABLE;

/// Whether one more or one less gives objects.
#[derive(Clone, Copy)]
pub(crate) enum Change {
    More,
    Less,
}

impl Look<'_> {
    /// The interface gives its addresses and routes on a device. It takes no memory.
    pub fn give_all(&self, gifts: &mut GivenObjects, row: &InterfaceRow, dev: &DevName)
        requires reach { IsReachOf self.now.inputs.now.inputs self.now.reach.now }
        requires places { (o : Object)
            → Contains (want.given_on (facts_at self.now) row.now dev.now) o
            → has_place gifts.old o ≡ true }
        requires few { (o : Object)
            → Contains (want.given_on (facts_at self.now) row.now dev.now) o
            → givers_of gifts.old o
            + length (want.given_on (facts_at self.now) row.now dev.now) ≤ 2 ^ 62 }
        ensures { gifts.new ≡ fold given_once_more gifts.old
            (want.given_on (facts_at self.now) row.now dev.now) }
    {
        self.change_all(gifts, Change::More, row, dev);
    }

    /// The interface takes back its addresses and routes on a device. It takes no memory.
    pub fn withdraw_all(&self, gifts: &mut GivenObjects, row: &InterfaceRow, dev: &DevName)
        requires reach { IsReachOf self.now.inputs.now.inputs self.now.reach.now }
        requires given { (o : Object)
            → spec.times_in o (want.given_on (facts_at self.now) row.now dev.now)
            ≤ givers_of gifts.old o }
        ensures { gifts.new ≡ fold given_once_less gifts.old
            (want.given_on (facts_at self.now) row.now dev.now) }
    {
        self.change_all(gifts, Change::Less, row, dev);
    }

    fn change_all(
        &self,
        gifts: &mut GivenObjects,
        change: Change,
        row: &InterfaceRow,
        dev: &DevName,
    )
        requires reach { IsReachOf self.now.inputs.now.inputs self.now.reach.now }
        requires can { spec.Can change gifts.old
            (want.given_on (facts_at self.now) row.now dev.now) }
        ensures { gifts.new ≡ fold (spec.changed_once change) gifts.old
            (want.given_on (facts_at self.now) row.now dev.now) }
    {
        self.change_own(gifts, change, row, dev);
        self.change_sections(gifts, change, row, dev);
    }

    // What the options of a static interface give, or what the answer of another gives.
    fn change_own(
        &self,
        gifts: &mut GivenObjects,
        change: Change,
        row: &InterfaceRow,
        dev: &DevName,
    )
        requires { spec.Can change gifts.old (spec.own_given (facts_at self.now) row.now dev.now) }
        ensures { gifts.new ≡ fold (spec.changed_once change) gifts.old
            (spec.own_given (facts_at self.now) row.now dev.now) }
    {
        if is_static(&row.proto) {
            change_options(gifts, change, row, dev);
            return;
        }
        match self.answer_of(row) {
            Some(answer) => change_answer(gifts, change, answer, dev),
            None => {}
        }
    }

    // The routes of the sections that name the interface.
    fn change_sections(
        &self,
        gifts: &mut GivenObjects,
        change: Change,
        row: &InterfaceRow,
        dev: &DevName,
    )
        requires reach { IsReachOf self.now.inputs.now.inputs self.now.reach.now }
        requires can { spec.Can change gifts.old
            (want.of_sections (facts_at self.now) row.now dev.now) }
        ensures { gifts.new ≡ fold (spec.changed_once change) gifts.old
            (want.of_sections (facts_at self.now) row.now dev.now) }
    {
        let places = self.reach.routes_of(&row.name);
        let routes = self.inputs.conf().routes.as_slice();
        change_routes_at(gifts, change, routes, dev, places);
    }
}

fn change_options(gifts: &mut GivenObjects, change: Change, row: &InterfaceRow, dev: &DevName)
    requires { spec.Can change gifts.old (want.of_options row.now dev.now) }
    ensures { gifts.new
        ≡ fold (spec.changed_once change) gifts.old (want.of_options row.now dev.now) }
{
    change_addresses(gifts, change, row.addresses.as_slice(), dev);
    change_gateways(gifts, change, row.gateways.as_slice(), row.metric, dev);
}

fn change_answer(gifts: &mut GivenObjects, change: Change, answer: &Answer, dev: &DevName)
    requires { spec.Can change gifts.old (want.of_answer dev.now (Some answer.now)) }
    ensures { gifts.new
        ≡ fold (spec.changed_once change) gifts.old (want.of_answer dev.now (Some answer.now)) }
{
    change_addresses(gifts, change, answer.addresses.as_slice(), dev);
    change_answer_routes(gifts, change, answer.routes.as_slice(), dev);
}

fn change_addresses(gifts: &mut GivenObjects, change: Change, addresses: &[Cidr], dev: &DevName)
    requires { spec.Can change gifts.old (map (object.Address dev.now) addresses.now) }
    ensures { gifts.new
        ≡ fold (spec.changed_once change) gifts.old (map (object.Address dev.now) addresses.now) }
{
    for cidr in addresses {
        let object = Object::Address {
            dev: *dev,
            cidr: *cidr,
        };
        change_one(gifts, change, &object);
    }
}

fn change_gateways(
    gifts: &mut GivenObjects,
    change: Change,
    gateways: &[Addr],
    metric: u32,
    dev: &DevName,
)
    requires { spec.Can change gifts.old (map (want.default_route dev.now metric) gateways.now) }
    ensures { gifts.new ≡ fold (spec.changed_once change) gifts.old
        (map (want.default_route dev.now metric) gateways.now) }
{
    for gateway in gateways {
        change_one(gifts, change, &default_route(dev, metric, gateway));
    }
}

fn change_answer_routes(
    gifts: &mut GivenObjects,
    change: Change,
    routes: &[AnswerRoute],
    dev: &DevName,
)
    requires { spec.Can change gifts.old (map (answer_route dev.now) routes.now) }
    ensures { gifts.new
        ≡ fold (spec.changed_once change) gifts.old (map (answer_route dev.now) routes.now) }
{
    for route in routes {
        change_one(gifts, change, &route_of_answer(route, dev));
    }
}

fn change_routes_at(
    gifts: &mut GivenObjects,
    change: Change,
    routes: &[RouteRow],
    dev: &DevName,
    places: &[usize],
)
    requires { spec.Can change gifts.old
        (map (route_on dev.now) (filter_map (slice_get routes.now) places.now)) }
    ensures { gifts.new ≡ fold (spec.changed_once change) gifts.old
        (map (route_on dev.now) (filter_map (slice_get routes.now) places.now)) }
{
    for place in places {
        change_route_at(gifts, change, routes, dev, place);
    }
}

fn change_route_at(
    gifts: &mut GivenObjects,
    change: Change,
    routes: &[RouteRow],
    dev: &DevName,
    place: &usize,
)
    requires { spec.Can change gifts.old
        (map (route_on dev.now) (option_to_list (slice_get routes.now place.now))) }
    ensures { gifts.new ≡ fold (spec.changed_once change) gifts.old
        (map (route_on dev.now) (option_to_list (slice_get routes.now place.now))) }
{
    if let Some(route) = route_row(routes, *place) {
        change_one(gifts, change, &route_of_section(route, dev));
    }
}

fn route_row(routes: &[RouteRow], place: usize) -> Option<&RouteRow>
    ensures { option_copied result ≡ slice_get routes.now place }
{
    routes.get(place)
}

// One more or one less gives an object.
fn change_one(gifts: &mut GivenObjects, change: Change, object: &Object)
    requires { spec.Can change gifts.old (object.now ∷ []) }
    ensures { gifts.new ≡ spec.changed_once change gifts.old object.now }
{
    match change {
        Change::More => gifts.give(object),
        Change::Less => gifts.withdraw(object),
    }
}

// A route to everything by a gateway.
fn default_route(dev: &DevName, metric: u32, gateway: &Addr) -> Object
    ensures { result ≡ want.default_route dev.now metric gateway.now }
{
    Object::Route(RouteObject {
        target: everything(*gateway),
        via: Some(*gateway),
        dev: *dev,
        metric,
        table: MAIN_TABLE,
    })
}

fn everything(family: Addr) -> Cidr
    ensures { result ≡ want.everything family }
{
    match family {
        Addr::V4(_) => Cidr {
            addr: Addr::V4(V4([0; 4])),
            length: 0,
        },
        Addr::V6(_) => Cidr {
            addr: Addr::V6(V6([0; 16])),
            length: 0,
        },
    }
}

fn route_of_answer(route: &AnswerRoute, dev: &DevName) -> Object
    ensures { result ≡ answer_route dev.now route.now }
{
    Object::Route(RouteObject {
        target: route.target,
        via: route.via,
        dev: *dev,
        metric: route.metric,
        table: MAIN_TABLE,
    })
}

fn route_of_section(route: &RouteRow, dev: &DevName) -> Object
    ensures { result ≡ route_on dev.now route.now }
{
    Object::Route(RouteObject {
        target: route.target,
        via: route.via,
        dev: *dev,
        metric: route.metric,
        table: route.table,
    })
}
