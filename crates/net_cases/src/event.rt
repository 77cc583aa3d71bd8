ghost use Rattle.std.specs.Prelude.{◌≡◌, [], OnOk};
ghost use Rattle.net_plane.specs.Network.{IsOf, HasSameKernel};

use crate::bench::Bench;
use kern_model::{DevEvent, DevName, Kernel, Mac, read_name};
use net_addr::read_cidr;
use net_plane::{Net, NetError};
use net_rules::Answer;
use plane_io::{Items, Text};
use std::alloc::Global;
use uci_tree::{Package, read_package};

/// How an event ended that its words ask for.
pub(crate) type Ended = anyhow::Result<Result<(), NetError>>;

/// A name that may be a device's.
pub(crate) fn name_of(word: &str) -> anyhow::Result<DevName> {
    match read_name(word.as_bytes()) {
        Some(name) => Ok(name),
        None => Err(anyhow::anyhow!("no name of a device")),
    }
}

fn is_up(word: &str) -> anyhow::Result<bool> {
    match word {
        "up" => Ok(true),
        "down" => Ok(false),
        _ => Err(anyhow::anyhow!("neither up nor down")),
    }
}

fn device_event(words: &[&str]) -> anyhow::Result<Option<DevEvent>> {
    Ok(Some(match words {
        ["dev", "add", name, carrier] => DevEvent::Add {
            name: name_of(name)?,
            carrier: is_up(carrier)?,
            mtu: 1500,
            mac: Mac([0; 6]),
        },
        ["dev", "del", name] => DevEvent::Remove {
            name: name_of(name)?,
        },
        ["carrier", name, on] => DevEvent::Carrier {
            name: name_of(name)?,
            on: is_up(on)?,
        },
        _ => return Ok(None),
    }))
}

fn package_of(alloc: Global, name: &[u8], text: &[u8]) -> anyhow::Result<Package> {
    if text.len() > 1 << 20 {
        return Err(anyhow::anyhow!("a file is too long"));
    }
    Ok(read_package(alloc, name, text)?)
}

fn answer_of(alloc: Global, words: &[&str]) -> anyhow::Result<Answer> {
    let mut addresses = Items::new(alloc);
    for word in words {
        match read_cidr(word.as_bytes()) {
            Ok(address) => addresses.push(address)?,
            Err(_) => return Err(anyhow::anyhow!("no address with a length")),
        }
    }
    Ok(Answer {
        up: true,
        device: None,
        addresses,
        routes: Items::new(alloc),
    })
}

fn ports_of(alloc: Global, words: &[&str]) -> anyhow::Result<Items<Option<DevName>>> {
    let mut ports = Items::new(alloc);
    for word in words {
        ports.push(Some(name_of(word)?))?;
    }
    Ok(ports)
}

fn load(alloc: Global, net: &mut Net, network: &[u8], wireless: &[u8]) -> Ended
    requires { net.old.notices ≡ [] }
    ensures { OnOk result (HasSameKernel net.old net.new) }
{
    let network = package_of(alloc, b"network", network)?;
    let wireless = package_of(alloc, b"wireless", wireless)?;
    Ok(net.load(alloc, &network, &wireless))
}

/// Carries out an event that is none of a device.
fn take(alloc: Global, bench: &Bench, net: &mut Net, words: &[&str]) -> Ended
    requires { net.old.notices ≡ [] }
    ensures { OnOk result (HasSameKernel net.old net.new) }
{
    match words {
        ["load", network] => load(alloc, net, bench.file(network)?, b""),
        ["load", network, wireless] => {
            load(alloc, net, bench.file(network)?, bench.file(wireless)?)
        }
        ["up", interface] => Ok(net.operator(Text::from_bytes(alloc, interface.as_bytes())?, true)),
        ["down", interface] => {
            Ok(net.operator(Text::from_bytes(alloc, interface.as_bytes())?, false))
        }
        ["answer", interface, number, addresses @ ..] => {
            let answer = answer_of(alloc, addresses)?;
            let interface = Text::from_bytes(alloc, interface.as_bytes())?;
            Ok(net.answer(alloc, interface, number.parse()?, answer))
        }
        ["radio", radio, number, ports @ ..] => {
            let ports = ports_of(alloc, ports)?;
            let radio = Text::from_bytes(alloc, radio.as_bytes())?;
            Ok(net.radio(alloc, radio, number.parse()?, ports))
        }
        ["settle"] => Ok(Ok(())),
        _ => Err(anyhow::anyhow!("no such event")),
    }
}

/// Carries an event out, and does not settle.
pub(crate) fn happen<K: Kernel>(
    alloc: Global,
    bench: &Bench,
    net: &mut Net,
    kernel: &mut K,
    words: &[&str],
) -> Ended
    requires told { net.old.notices ≡ [] }
    requires of { IsOf K.Kernel kernel.old net.old }
    ensures { OnOk result (IsOf K.Kernel kernel.new net.new) }
{
    match device_event(words)? {
        Some(event) => Ok(net.device(alloc, kernel, &event)),
        None => take(alloc, bench, net, words),
    }
}
