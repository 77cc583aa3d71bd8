//! Places for what an interface may give.
ghost use Rattle.std.specs.Prelude.{◌≡◌, map, Some, true, OnOk, if◌then◌else◌, option_to_list};
ghost use Rattle.std.specs.List.{filter_map, slice_get};
ghost use Rattle.std.specs.Option.{option_copied};
ghost use Rattle.kern_model.specs.declared.object.Object.TheVariants as object;
ghost use Rattle.kern_calls.specs.Upper.{is_upper};
ghost use Rattle.net_rules.specs.Rows as rows;
ghost use Rattle.net_rules.specs.Want.{of_options, of_answer, default_route};
ghost use Rattle.net_wants.specs.Given.{answer_route, route_on};
ghost use Rattle.given_objects.specs.Changes.{with_place};
ghost use Rattle.gift_places.specs.Expecting.{listed_given, with_places, HasMorePlaces};

use crate::objects;
use given_objects::GivenObjects;
use kern_model::{DevName, Object};
use net_addr::{Addr, Cidr};
use net_rows::{InterfaceRow, RouteRow};
use net_rules::{Answer, AnswerRoute};
use net_view::is_static;
use plane_io::Memory;

/// A place for each address and each route that a row gives on a device: by its options where it is
/// static, else by an answer, if there is one; then the routes at some places.
///
/// # Errors
///
/// `Memory` where there is not enough of it. Then there may be places for some of them.
pub fn expect_given(
    gifts: &mut GivenObjects,
    row: &InterfaceRow,
    answer: Option<&Answer>,
    routes: &[RouteRow],
    places: &[usize],
    dev: &DevName,
) -> Result<(), Memory>
    ensures ok { OnOk result (gifts.new ≡ with_places gifts.old
        (listed_given row.now (option_copied answer.entry) routes.now places.now dev.now)) }
    ensures more { HasMorePlaces gifts.old gifts.new }
{
    expect_own(gifts, row, answer, dev)?;
    expect_routes_at(gifts, routes, dev, places)
}

// Places for what the options of a static interface give, or what the answer of another gives.
fn expect_own(
    gifts: &mut GivenObjects,
    row: &InterfaceRow,
    answer: Option<&Answer>,
    dev: &DevName,
) -> Result<(), Memory>
    ensures ok { OnOk result (gifts.new ≡ with_places gifts.old
        (if rows.is_static row.now.proto then of_options row.now dev.now
        else of_answer dev.now (option_copied answer.entry))) }
    ensures more { HasMorePlaces gifts.old gifts.new }
{
    if is_static(&row.proto) {
        return expect_options(gifts, row, dev);
    }
    match answer {
        Some(answer) => expect_answer(gifts, answer, dev),
        None => Ok(()),
    }
}

fn expect_options(gifts: &mut GivenObjects, row: &InterfaceRow, dev: &DevName) -> Result<(), Memory>
    ensures ok { OnOk result (gifts.new
        ≡ with_places gifts.old (of_options row.now dev.now)) }
    ensures more { HasMorePlaces gifts.old gifts.new }
{
    expect_addresses(gifts, row.addresses.as_slice(), dev)?;
    expect_gateways(gifts, row.gateways.as_slice(), row.metric, dev)
}

fn expect_answer(gifts: &mut GivenObjects, answer: &Answer, dev: &DevName) -> Result<(), Memory>
    ensures ok { OnOk result (gifts.new
        ≡ with_places gifts.old (of_answer dev.now (Some answer.now))) }
    ensures more { HasMorePlaces gifts.old gifts.new }
{
    expect_addresses(gifts, answer.addresses.as_slice(), dev)?;
    expect_answer_routes(gifts, answer.routes.as_slice(), dev)
}

fn expect_addresses(
    gifts: &mut GivenObjects,
    addresses: &[Cidr],
    dev: &DevName,
) -> Result<(), Memory>
    ensures ok { OnOk result (gifts.new
        ≡ with_places gifts.old (map (object.Address dev.now) addresses.now)) }
    ensures more { HasMorePlaces gifts.old gifts.new }
{
    for cidr in addresses {
        let object = Object::Address {
            dev: *dev,
            cidr: *cidr,
        };
        expect_one(gifts, &object)?;
    }
    Ok(())
}

fn expect_gateways(
    gifts: &mut GivenObjects,
    gateways: &[Addr],
    metric: u32,
    dev: &DevName,
) -> Result<(), Memory>
    ensures ok { OnOk result (gifts.new
        ≡ with_places gifts.old (map (default_route dev.now metric) gateways.now)) }
    ensures more { HasMorePlaces gifts.old gifts.new }
{
    for gateway in gateways {
        expect_one(gifts, &objects::default_route(dev, metric, gateway))?;
    }
    Ok(())
}

fn expect_answer_routes(
    gifts: &mut GivenObjects,
    routes: &[AnswerRoute],
    dev: &DevName,
) -> Result<(), Memory>
    ensures ok { OnOk result (gifts.new
        ≡ with_places gifts.old (map (answer_route dev.now) routes.now)) }
    ensures more { HasMorePlaces gifts.old gifts.new }
{
    for route in routes {
        expect_one(gifts, &objects::route_of_answer(route, dev))?;
    }
    Ok(())
}

fn expect_routes_at(
    gifts: &mut GivenObjects,
    routes: &[RouteRow],
    dev: &DevName,
    places: &[usize],
) -> Result<(), Memory>
    ensures ok { OnOk result (gifts.new ≡ with_places gifts.old
        (map (route_on dev.now) (filter_map (slice_get routes.now) places.now))) }
    ensures more { HasMorePlaces gifts.old gifts.new }
{
    for place in places {
        expect_route_at(gifts, routes, dev, place)?;
    }
    Ok(())
}

fn expect_route_at(
    gifts: &mut GivenObjects,
    routes: &[RouteRow],
    dev: &DevName,
    place: &usize,
) -> Result<(), Memory>
    ensures ok { OnOk result (gifts.new ≡ with_places gifts.old
        (map (route_on dev.now) (option_to_list (slice_get routes.now place.now)))) }
    ensures more { HasMorePlaces gifts.old gifts.new }
{
    match route_row(routes, *place) {
        Some(route) => expect_one(gifts, &objects::route_of_section(route, dev)),
        None => Ok(()),
    }
}

fn route_row(routes: &[RouteRow], place: usize) -> Option<&RouteRow>
    ensures { option_copied result ≡ slice_get routes.now place }
{
    routes.get(place)
}

// A place for an address or a route.
fn expect_one(gifts: &mut GivenObjects, object: &Object) -> Result<(), Memory>
    requires { is_upper object.now ≡ true }
    ensures ok { OnOk result (gifts.new ≡ with_place gifts.old object.now) }
    ensures more { HasMorePlaces gifts.old gifts.new }
{
    gifts.expect(object)
}
