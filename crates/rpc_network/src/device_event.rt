//! What happens to a device, by its arguments.
ghost use Rattle.std.specs.Prelude.{◌≡◌};
ghost use Rattle.rpc_network.specs.DeviceEvent as spec;

use crate::arguments::{truth_of, truth_or, whole_of};
use blob_codec::Attr;
use kern_model::{DevEvent, DevName, Mac, read_name};
use net_rows::read_mac;
use rpc_session::{argument, text_argument, text_of};

/// The largest size of a packet that a device is told to have where nothing is said of it, in
/// bytes.
const USUAL_MTU: u32 = 1500;

/// The event that the arguments tell: the device `name` comes or leaves by `present`, and else
/// changes its `carrier`. One that comes has a carrier, an MTU of 1,500 bytes and no hardware
/// address, where nothing else is said.
pub(crate) fn event_of(args: &[Attr]) -> Option<DevEvent>
    ensures { result ≡ spec.event_of args.now }
{
    let name = read_name(text_argument(args, b"name")?)?;
    if argument(args, b"present").is_some() {
        return presence_of(name, args);
    }
    let on = truth_of(args, b"carrier")?;
    Some(DevEvent::Carrier { name, on })
}

fn presence_of(name: DevName, args: &[Attr]) -> Option<DevEvent>
    ensures { result ≡ spec.presence_of name args.now }
{
    if truth_of(args, b"present")? {
        return coming_of(name, args);
    }
    Some(DevEvent::Remove { name })
}

fn coming_of(name: DevName, args: &[Attr]) -> Option<DevEvent>
    ensures { result ≡ spec.coming_of name args.now }
{
    let carrier = truth_or(args, b"carrier", true)?;
    let mtu = mtu_of(args)?;
    let mac = mac_of(args)?;
    Some(DevEvent::Add {
        name,
        carrier,
        mtu,
        mac,
    })
}

fn mtu_of(args: &[Attr]) -> Option<u32>
    ensures { result ≡ spec.mtu_of args.now }
{
    match argument(args, b"mtu") {
        Some(value) => u32::try_from(whole_of(value)?).ok(),
        None => Some(USUAL_MTU),
    }
}

fn mac_of(args: &[Attr]) -> Option<Mac>
    ensures { result ≡ spec.mac_of args.now }
{
    match argument(args, b"macaddr") {
        Some(value) => read_mac(text_of(value)?),
        None => Some(Mac([0; 6])),
    }
}
