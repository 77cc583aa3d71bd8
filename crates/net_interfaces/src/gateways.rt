ghost use Rattle.std.specs.Prelude.{◌≡◌, IfOk};
ghost use Rattle.net_interfaces.specs.Gateways as spec;

use crate::address::{Family, read_in};
use crate::addresses::is_static;
use crate::given::{add_read, is_unread};
use net_addr::Addr;
use net_rows::{Stated, value_of};
use plane_io::{Items, Memory};
use std::alloc::Global;
use uci_tree::{Opt, Value};

/// The address of the family that an option gives.
pub fn stated_addr(family: Family, options: &[Opt], name: &[u8]) -> Stated<Addr>
    ensures { result ≡ spec.stated_addr family name.now options.now }
{
    match value_of(options, name) {
        None => Stated::Absent,
        Some(Value::Many(_)) => Stated::Unread,
        Some(Value::One(text)) => match read_in(family, text.as_bytes()) {
            Some(addr) => Stated::Read(addr),
            None => Stated::Unread,
        },
    }
}

/// The gateways of an interface, which are none where its protocol is not static.
pub fn gateways_of(alloc: Global, options: &[Opt]) -> Result<Items<Addr>, Memory>
    ensures { IfOk result (λ gateways. gateways ≡ spec.gateways options.now) }
{
    let mut gateways = Items::new(alloc);
    if !is_static(options) {
        return Ok(gateways);
    }
    add_read(&mut gateways, &stated_addr(Family::V4, options, b"gateway"))?;
    add_read(&mut gateways, &stated_addr(Family::V6, options, b"ip6gw"))?;
    Ok(gateways)
}

/// Whether a gateway does not read.
pub fn has_bad_gateway(options: &[Opt]) -> bool
    ensures { result ≡ spec.has_bad_gateway options.now }
{
    is_unread(&stated_addr(Family::V4, options, b"gateway"))
        || is_unread(&stated_addr(Family::V6, options, b"ip6gw"))
}
