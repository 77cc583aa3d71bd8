//! What the types of the program keep of an address or a route: its name, addresses and numbers are
//! of their form.
ghost use Rattle.std.specs.Prelude.{◌≡◌, ◌^◌, ◌<◌, true};
ghost use Rattle.net_addr.specs.Octets.{IsAddr};
ghost use Rattle.net_addr.specs.Width.{IsCidr};
ghost use Rattle.kern_model.specs.Name.{is_name};
ghost use Rattle.kern_model.specs.Line.{IsGateway, IsRoute, IsPrintable};
ghost use Rattle.kern_calls.specs.Upper.{is_upper};

use kern_model::{DevName, Object, RouteObject};
use net_addr::{Addr, Cidr};

/// An address or a route of the program is of its form.
pub(crate) fn has_form(object: &Object)
    ensures { is_upper object.now ≡ true → IsPrintable object.now }
{
    match object {
        Object::Address { dev, cidr } => {
            is_named(dev);
            is_prefix(*cidr);
        }
        Object::Route(route) => route_has_form(route),
        _ => (),
    }
}

fn route_has_form(route: &RouteObject)
    ensures { IsRoute route.now }
{
    is_number(route.metric);
    is_number(route.table);
    is_named(&route.dev);
    is_prefix(route.target);
    is_gateway(route.via);
}

fn is_number(number: u32)
    ensures { number < 2 ^ 32 }
{}

fn is_named(name: &DevName)
    ensures { is_name name.now ≡ true }
{
    let _text = name.text();
}

fn is_prefix(cidr: Cidr)
    ensures { IsCidr cidr }
{
    is_address(cidr.addr);
}

fn is_gateway(via: Option<Addr>)
    ensures { IsGateway via }
{
    if let Some(via) = via {
        is_address(via);
    }
}

fn is_address(addr: Addr)
    ensures { IsAddr addr }
{
    let _bits = addr.bits();
}
