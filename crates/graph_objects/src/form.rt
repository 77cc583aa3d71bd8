//! What the types of the program keep of an object on a device: its names, addresses and numbers
//! are of their form.
ghost use Rattle.std.specs.Prelude.{◌≡◌, true};
ghost use Rattle.kern_model.specs.Name.{is_name};
ghost use Rattle.kern_model.specs.Line.{IsMac, IsOwnAddress, IsPrintable};
ghost use Rattle.kern_calls.specs.Lower.{is_lower};

use kern_model::{DevName, LinkKind, Mac, Object};

/// An object on a device is of its form.
pub(crate) fn has_form(object: &Object)
    ensures { is_lower object.now ≡ true → IsPrintable object.now }
{
    match object {
        Object::Link { name, kind } => link_has_form(*name, kind),
        Object::Mtu { name, mtu } => {
            let _range = *mtu;
            is_named(name);
        }
        Object::Mac { name, mac } => {
            let _octets = octets(*mac);
            is_named(name);
        }
        Object::Master { port, bridge } => {
            is_named(port);
            is_named(bridge);
        }
        Object::Vlan {
            bridge,
            port,
            id,
            ..
        } => {
            let _range = *id;
            is_named(bridge);
            is_named(port);
        }
        Object::Up { name } => is_named(name),
        Object::Address { .. } | Object::Route(_) => (),
    }
}

fn link_has_form(name: DevName, kind: &LinkKind)
    ensures { IsPrintable (Object.Link name kind.now) }
{
    is_named(&name);
    match kind {
        LinkKind::Bridge { mac, .. } => is_own_address(*mac),
        LinkKind::Vlan { lower, id, mac } => {
            let _range = *id;
            is_named(lower);
            is_own_address(*mac);
        }
    }
}

fn is_named(name: &DevName)
    ensures { is_name name.now ≡ true }
{
    let _text = name.text();
}

fn is_own_address(mac: Option<Mac>)
    ensures { IsOwnAddress mac }
{
    if let Some(mac) = mac {
        let _octets = octets(mac);
    }
}

fn octets(mac: Mac) -> [u8; 6]
    ensures { IsMac mac }
{
    mac.0
}
