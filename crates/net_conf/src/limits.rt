ghost use Rattle.std.specs.Prelude.{◌≡◌, nat_lt};
ghost use Rattle.net_conf.specs.Limits as spec;

use net_devices::{MOST_VLAN_ENTRIES, MOST_VLAN_ROWS, has_too_many_entries};
use net_rows::{Conf, RadioRow};

/// How many `interface` sections a configuration may have.
pub const MOST_INTERFACES: usize = 1024;

/// How many `route` and `route6` sections a configuration may have.
pub const MOST_ROUTES: usize = 4096;

/// How many `wifi-device` sections a configuration may have.
pub const MOST_RADIOS: usize = 64;

/// How many `wifi-iface` sections of its radios a configuration may have.
pub const MOST_WIFI_ROWS: usize = 256;

/// The first limit that is passed by another list than those of interfaces and of names.
pub fn later_limit(conf: &Conf) -> Option<usize>
    ensures { result ≡ spec.later_limit conf.now }
{
    if conf.routes.as_slice().len() > MOST_ROUTES {
        return Some(MOST_ROUTES);
    }
    if conf.radios.as_slice().len() > MOST_RADIOS {
        return Some(MOST_RADIOS);
    }
    if has_too_many_wifi_rows(conf.radios.as_slice()) {
        return Some(MOST_WIFI_ROWS);
    }
    vlan_limit(conf)
}

fn vlan_limit(conf: &Conf) -> Option<usize>
    ensures { result ≡ spec.vlan_limit conf.now }
{
    if conf.vlans.as_slice().len() > MOST_VLAN_ROWS {
        return Some(MOST_VLAN_ROWS);
    }
    if has_too_many_entries(conf.vlans.as_slice()) {
        return Some(MOST_VLAN_ENTRIES);
    }
    None
}

fn has_too_many_wifi_rows(radios: &[RadioRow]) -> bool
    ensures { result ≡ nat_lt MOST_WIFI_ROWS (spec.wifi_count radios.now) }
{
    let mut left = MOST_WIFI_ROWS;
    for radio in radios {
        let count = radio.rows.as_slice().len();
        if count > left {
            return true;
        }
        left -= count;
    }
    false
}
