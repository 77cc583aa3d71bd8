ghost use Rattle.std.specs.Prelude.{◌≡◌, IfOk};
ghost use Rattle.net_devices.specs.Said as spec;

use crate::each_once::{NamesOnce, TextsOnce};
use kern_model::{DevName, Mac, read_name};
use net_rows::{
    Stated, item_words, stated_mac, stated_name, stated_number, stated_vlan_id, truth_of, value_of,
};
use plane_io::{Items, Memory, Text};
use std::alloc::Global;
use uci_tree::{Opt, Section, Value};

/// The kind of link that a `device` section states.
#[derive(Drop)]
pub enum StatedKind {
    /// It has no `type`.
    Untyped,
    /// Its `type` is neither `bridge` nor `8021q`.
    Wrong,
    /// A bridge with the ports that it names, each once, and the words that are no device names.
    Bridge {
        empty: bool,
        ports: Items<DevName>,
        bad_ports: Items<Text>,
    },
    /// A VLAN over a name.
    Vlan {
        lower: Stated<DevName>,
        id: Stated<u16>,
    },
}

/// What a `device` section says.
#[derive(Drop)]
pub struct DeviceSection {
    pub name: Stated<DevName>,
    pub kind: StatedKind,
    pub mtu: Stated<u32>,
    pub mac: Stated<Mac>,
}

/// What a section says about the names of network devices: a `device` section, or the device of an
/// `interface` section.
#[derive(Drop)]
pub enum Said {
    Device(DeviceSection),
    Interface(DevName),
}

/// The least MTU of a device, in bytes (RFC 791).
pub const LEAST_MTU: u32 = 68;

/// The most MTU of a device, in bytes.
pub const MOST_MTU: u32 = 65535;

/// What a section says about the names of network devices; sections of other types say nothing.
pub fn said_in(alloc: Global, section: &Section) -> Result<Option<Said>, Memory>
    ensures { IfOk result (λ saying. saying ≡ spec.said_in section.now) }
{
    let options = section.options.as_slice();
    if section.kind.as_bytes() == b"device".as_slice() {
        let device = device_section(alloc, options)?;
        return Ok(Some(Said::Device(device)));
    }
    if section.kind.as_bytes() == b"interface".as_slice() {
        return Ok(interface_said(options));
    }
    Ok(None)
}

fn interface_said(options: &[Opt]) -> Option<Said>
    ensures { result ≡ spec.interface_said options.now }
{
    match stated_name(options, b"device") {
        Stated::Read(device) => Some(Said::Interface(device)),
        Stated::Unread => None,
        Stated::Absent => None,
    }
}

/// What a `device` section with these options says.
pub fn device_section(alloc: Global, options: &[Opt]) -> Result<DeviceSection, Memory>
    ensures { IfOk result (λ section. section ≡ spec.device_section options.now) }
{
    let kind = stated_kind(alloc, options)?;
    Ok(DeviceSection {
        name: stated_name(options, b"name"),
        kind,
        mtu: stated_number(options, b"mtu", LEAST_MTU, MOST_MTU),
        mac: stated_mac(options, b"macaddr"),
    })
}

fn stated_kind(alloc: Global, options: &[Opt]) -> Result<StatedKind, Memory>
    ensures { IfOk result (λ kind. kind ≡ spec.stated_kind options.now) }
{
    match value_of(options, b"type") {
        None => Ok(StatedKind::Untyped),
        Some(Value::Many(_)) => Ok(StatedKind::Wrong),
        Some(Value::One(text)) => kind_of_type(alloc, options, text.as_bytes()),
    }
}

fn kind_of_type(alloc: Global, options: &[Opt], text: &[u8]) -> Result<StatedKind, Memory>
    ensures { IfOk result (λ kind. kind ≡ spec.kind_of_type options.now text.now) }
{
    if text == b"bridge".as_slice() {
        return bridge_kind(alloc, options);
    }
    if text == b"8021q".as_slice() {
        return Ok(StatedKind::Vlan {
            lower: stated_name(options, b"ifname"),
            id: stated_vlan_id(options, b"vid"),
        });
    }
    Ok(StatedKind::Wrong)
}

fn bridge_kind(alloc: Global, options: &[Opt]) -> Result<StatedKind, Memory>
    ensures { IfOk result (λ kind. kind ≡ spec.bridge_kind options.now) }
{
    let words = port_words(alloc, options)?;
    Ok(StatedKind::Bridge {
        empty: truth_of(options, b"bridge_empty", false),
        ports: port_names(alloc, words.as_slice())?,
        bad_ports: bad_ports(alloc, words.as_slice())?,
    })
}

/// The words of `ports`, a list or a text with spaces.
pub fn port_words(alloc: Global, options: &[Opt]) -> Result<Items<Text>, Memory>
    ensures { IfOk result (λ words. words ≡ spec.port_words options.now) }
{
    match value_of(options, b"ports") {
        Some(value) => item_words(alloc, value),
        None => Ok(Items::new(alloc)),
    }
}

fn port_names(alloc: Global, words: &[Text]) -> Result<Items<DevName>, Memory>
    ensures { IfOk result (λ ports. ports ≡ spec.port_names words.now) }
{
    let mut ports = NamesOnce::new(alloc);
    for word in words {
        if let Some(port) = read_name(word.as_bytes()) {
            ports.add(&port)?;
        }
    }
    Ok(ports.into_items())
}

fn bad_ports(alloc: Global, words: &[Text]) -> Result<Items<Text>, Memory>
    ensures { IfOk result (λ ports. ports ≡ spec.bad_ports words.now) }
{
    let mut ports = TextsOnce::new(alloc);
    for word in words {
        if let None = read_name(word.as_bytes()) {
            ports.add(word)?;
        }
    }
    Ok(ports.into_items())
}
