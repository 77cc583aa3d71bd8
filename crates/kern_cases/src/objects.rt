use kern_model::{DevName, LinkKind, Mac, Object, RouteObject, read_name};
use net_addr::{read_addr, read_cidr};
use net_rows::read_mac;

/// The table of the routes that name none.
const MAIN_TABLE: u32 = 254;

pub(crate) fn name_of(text: &str) -> anyhow::Result<DevName> {
    match read_name(text.as_bytes()) {
        Some(name) => Ok(name),
        None => Err(anyhow::anyhow!("no name of a device")),
    }
}

pub(crate) fn mac_of(text: &str) -> anyhow::Result<Mac> {
    match read_mac(text.as_bytes()) {
        Some(mac) => Ok(mac),
        None => Err(anyhow::anyhow!("no hardware address")),
    }
}

/// Whether a word is `on`, else it has to be `off`.
pub(crate) fn is_on(word: &str) -> anyhow::Result<bool> {
    match word {
        "on" => Ok(true),
        "off" => Ok(false),
        _ => Err(anyhow::anyhow!("neither on nor off")),
    }
}

/// The object that the words tell.
pub(crate) fn object_of(words: &[&str]) -> anyhow::Result<Object> {
    match words {
        ["bridge", name, rest @ ..] => bridge(name, rest),
        ["vlan", name, "over", lower, "id", id, rest @ ..] => vlan(name, lower, id, rest),
        ["mtu", name, mtu] => Ok(Object::Mtu {
            name: name_of(name)?,
            mtu: mtu.parse()?,
        }),
        ["mac", name, mac] => Ok(Object::Mac {
            name: name_of(name)?,
            mac: mac_of(mac)?,
        }),
        ["master", port, bridge] => Ok(Object::Master {
            port: name_of(port)?,
            bridge: name_of(bridge)?,
        }),
        ["bridge-vlan", bridge, port, id, rest @ ..] => bridge_vlan(bridge, port, id, rest),
        ["up", name] => Ok(Object::Up {
            name: name_of(name)?,
        }),
        ["address", name, prefix] => Ok(Object::Address {
            dev: name_of(name)?,
            cidr: read_cidr(prefix.as_bytes())?,
        }),
        ["route", prefix, name, rest @ ..] => route(prefix, name, rest),
        _ => Err(anyhow::anyhow!("no such object")),
    }
}

fn bridge(name: &str, words: &[&str]) -> anyhow::Result<Object> {
    let (filtering, words) = match words {
        ["filtering", rest @ ..] => (true, rest),
        _ => (false, words),
    };
    Ok(Object::Link {
        name: name_of(name)?,
        kind: LinkKind::Bridge {
            mac: own_mac(words)?,
            filtering,
        },
    })
}

fn vlan(name: &str, lower: &str, id: &str, words: &[&str]) -> anyhow::Result<Object> {
    Ok(Object::Link {
        name: name_of(name)?,
        kind: LinkKind::Vlan {
            lower: name_of(lower)?,
            id: id.parse()?,
            mac: own_mac(words)?,
        },
    })
}

fn own_mac(words: &[&str]) -> anyhow::Result<Option<Mac>> {
    match words {
        [] => Ok(None),
        ["mac", mac] => Ok(Some(mac_of(mac)?)),
        _ => Err(anyhow::anyhow!("no such words of a link")),
    }
}

fn bridge_vlan(bridge: &str, port: &str, id: &str, words: &[&str]) -> anyhow::Result<Object> {
    let (pvid, untagged) = match words {
        [] => (false, false),
        ["pvid"] => (true, false),
        ["untagged"] => (false, true),
        ["pvid", "untagged"] => (true, true),
        _ => return Err(anyhow::anyhow!("no such words of a VLAN")),
    };
    Ok(Object::Vlan {
        bridge: name_of(bridge)?,
        port: name_of(port)?,
        id: id.parse()?,
        pvid,
        untagged,
    })
}

fn route(prefix: &str, name: &str, words: &[&str]) -> anyhow::Result<Object> {
    let (via, words) = match words {
        ["via", address, rest @ ..] => (Some(read_addr(address.as_bytes())?), rest),
        _ => (None, words),
    };
    let (metric, words) = match words {
        ["metric", number, rest @ ..] => (number.parse()?, rest),
        _ => (0, words),
    };
    let table = match words {
        [] => MAIN_TABLE,
        ["table", number] => number.parse()?,
        _ => return Err(anyhow::anyhow!("no such words of a route")),
    };
    Ok(Object::Route(RouteObject {
        target: read_cidr(prefix.as_bytes())?,
        via,
        dev: name_of(name)?,
        metric,
        table,
    }))
}
