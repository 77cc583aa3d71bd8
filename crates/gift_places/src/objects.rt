//! The routes that options, answers and sections give on a device.
ghost use Rattle.std.specs.Prelude.{◌≡◌};
ghost use Rattle.net_rules.specs.Want as want;
ghost use Rattle.net_wants.specs.Given.{answer_route, route_on};

use kern_model::{DevName, Object, RouteObject};
use net_addr::{Addr, Cidr, V4, V6};
use net_rows::RouteRow;
use net_rules::AnswerRoute;
use net_wants::MAIN_TABLE;

/// A route to everything by a gateway.
pub(crate) fn default_route(dev: &DevName, metric: u32, gateway: &Addr) -> Object
    ensures { result ≡ want.default_route dev.now metric gateway.now }
{
    Object::Route(RouteObject {
        target: everything(*gateway),
        via: Some(*gateway),
        dev: *dev,
        metric,
        table: MAIN_TABLE,
    })
}

/// All addresses of a family.
fn everything(family: Addr) -> Cidr
    ensures { result ≡ want.everything family }
{
    match family {
        Addr::V4(_) => Cidr {
            addr: Addr::V4(V4([0; 4])),
            length: 0,
        },
        Addr::V6(_) => Cidr {
            addr: Addr::V6(V6([0; 16])),
            length: 0,
        },
    }
}

/// A route of an answer.
pub(crate) fn route_of_answer(route: &AnswerRoute, dev: &DevName) -> Object
    ensures { result ≡ answer_route dev.now route.now }
{
    Object::Route(RouteObject {
        target: route.target,
        via: route.via,
        dev: *dev,
        metric: route.metric,
        table: MAIN_TABLE,
    })
}

/// A route of a section.
pub(crate) fn route_of_section(route: &RouteRow, dev: &DevName) -> Object
    ensures { result ≡ route_on dev.now route.now }
{
    Object::Route(RouteObject {
        target: route.target,
        via: route.via,
        dev: *dev,
        metric: route.metric,
        table: route.table,
    })
}
