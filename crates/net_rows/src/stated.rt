ghost use Rattle.std.specs.Prelude.{◌≡◌};
ghost use Rattle.kern_model.specs.declared.vlan_name.TheConstants.{LEAST_VLAN_ID, MOST_VLAN_ID};
ghost use Rattle.net_rows.specs.Options as by_name;
ghost use Rattle.net_rows.specs.Stated as spec;
ghost use Rattle.net_rows.specs.Number.{number_within};
ghost use Rattle.net_rows.specs.HardwareAddress.{mac_of};

use crate::hardware_address::read_mac;
use crate::number::{read_number, read_vlan_id};
use crate::options::value_of;
use kern_model::{DevName, Mac, read_name};
use uci_tree::{Opt, Value};

/// What an option gives: it is absent, its value does not read, or it has a value.
#[derive(Clone, Copy)]
pub enum Stated<T> {
    Absent,
    Unread,
    Read(T),
}

/// The device name that an option gives.
pub fn stated_name(options: &[Opt], name: &[u8]) -> Stated<DevName>
    ensures { result ≡ spec.stated spec.name_of (by_name.value_of name.now options.now) }
{
    match value_of(options, name) {
        None => Stated::Absent,
        Some(Value::Many(_)) => Stated::Unread,
        Some(Value::One(text)) => match read_name(text.as_bytes()) {
            Some(device) => Stated::Read(device),
            None => Stated::Unread,
        },
    }
}

/// The number within these bounds that an option gives as a decimal.
pub fn stated_number(options: &[Opt], name: &[u8], least: u32, most: u32) -> Stated<u32>
    ensures { result ≡ spec.stated (number_within least most)
        (by_name.value_of name.now options.now) }
{
    match value_of(options, name) {
        None => Stated::Absent,
        Some(Value::Many(_)) => Stated::Unread,
        Some(Value::One(text)) => match read_number(text.as_bytes(), least, most) {
            Some(number) => Stated::Read(number),
            None => Stated::Unread,
        },
    }
}

/// The identifier of a VLAN that an option gives.
pub fn stated_vlan_id(options: &[Opt], name: &[u8]) -> Stated<u16>
    ensures { result ≡ spec.stated (number_within LEAST_VLAN_ID MOST_VLAN_ID)
        (by_name.value_of name.now options.now) }
{
    match value_of(options, name) {
        None => Stated::Absent,
        Some(Value::Many(_)) => Stated::Unread,
        Some(Value::One(text)) => match read_vlan_id(text.as_bytes()) {
            Some(id) => Stated::Read(id),
            None => Stated::Unread,
        },
    }
}

/// The hardware address that an option gives.
pub fn stated_mac(options: &[Opt], name: &[u8]) -> Stated<Mac>
    ensures { result ≡ spec.stated mac_of (by_name.value_of name.now options.now) }
{
    match value_of(options, name) {
        None => Stated::Absent,
        Some(Value::Many(_)) => Stated::Unread,
        Some(Value::One(text)) => match read_mac(text.as_bytes()) {
            Some(mac) => Stated::Read(mac),
            None => Stated::Unread,
        },
    }
}
