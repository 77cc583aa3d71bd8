ghost use Rattle.std.specs.Prelude.{◌≡◌, ℕ, Some, None, Err, IfOk, OnOk};
ghost use Rattle.net_rows.specs.declared.conf_error.ConfError.TheVariants.{Limit};
ghost use Rattle.net_conf.specs.Conf as spec;
ghost use Rattle.net_conf.specs.Limits.{passed_limit};

use crate::limits::{MOST_INTERFACES, later_limit};
use net_devices::{DeviceConf, read_devices};
use net_interfaces::{interface_rows, radio_rows, route_rows};
use net_modern::modern;
use net_rows::{Conf, ConfError};
use std::alloc::Global;
use uci_tree::Package;

/// The rows of a `network` package, which may be in the syntax from before OpenWrt 21.02, and of a
/// `wireless` package. Each row has its faults beside it.
///
/// # Errors
///
/// `Limit` where a list is longer than it may be. Of several the first is told: 1,024 interfaces,
/// 4,096 names of devices, 4,096 routes, 64 radios, 256 interfaces of radios, 1,024 rows of VLANs
/// of bridges, and 16,384 entries of these.
pub fn read_conf(alloc: Global, network: &Package, wireless: &Package) -> Result<Conf, ConfError>
    ensures rows { IfOk result (λ rows. rows ≡ spec.conf network.now wireless.now) }
    ensures within { OnOk result (passed_limit (spec.conf network.now wireless.now) ≡ None) }
    ensures limit { (number : ℕ) → result ≡ Err (Limit number) →
        passed_limit (spec.conf network.now wireless.now) ≡ Some number }
{
    let network = modern(alloc, network)?;
    let sections = network.sections.as_slice();
    let interfaces = interface_rows(alloc, sections)?;
    if interfaces.as_slice().len() > MOST_INTERFACES {
        return Err(limit(MOST_INTERFACES));
    }
    let DeviceConf {
        devices,
        names,
        vlans,
    } = match read_devices(alloc, &network) {
        Ok(found) => found,
        Err(error) => return Err(error),
    };
    let routes = route_rows(alloc, interfaces.as_slice(), sections)?;
    let radios = radio_rows(alloc, wireless.sections.as_slice())?;
    let conf = Conf {
        interfaces,
        devices,
        routes,
        radios,
        names,
        vlans,
    };
    match later_limit(&conf) {
        Some(number) => Err(limit(number)),
        None => Ok(conf),
    }
}

fn limit(number: usize) -> ConfError
    ensures { result ≡ Limit number }
{
    ConfError::Limit {
        number: number as u64,
    }
}
