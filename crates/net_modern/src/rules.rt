ghost use Rattle.std.specs.Prelude.{◌≡◌, IfOk};
ghost use Rattle.net_modern.specs.Rules as spec;

use crate::options::{has_text, ifname_words, move_to_bridge, put_device, put_ports, take_out};
use net_rows::is_given;
use plane_io::{Items, Memory, Text};
use std::alloc::Global;
use uci_tree::{Section, anonymous_name};

/// An interface over its bridge, and the `device` section of the bridge.
#[derive(Drop)]
pub struct OverBridge {
    pub interface: Section,
    pub bridge: Section,
}

/// Whether it is a `device` section.
pub fn is_device(section: &Section) -> bool
    ensures { result ≡ spec.is_device section.now }
{
    section.kind.as_bytes() == b"device".as_slice()
}

fn is_named_interface(section: &Section) -> bool
    ensures { result ≡ spec.is_named_interface section.now }
{
    !section.anonymous && section.kind.as_bytes() == b"interface".as_slice()
}

fn has(section: &Section, name: &[u8]) -> bool
    ensures { result ≡ spec.has name.now section.now }
{
    is_given(section.options.as_slice(), name)
}

fn is_bridge(section: &Section) -> bool
    ensures { result ≡ spec.is_bridge section.now }
{
    has_text(section.options.as_slice(), b"type", b"bridge")
}

fn is_old_bridge(section: &Section) -> bool
    ensures { result ≡ spec.is_old_bridge section.now }
{
    is_device(section) && is_bridge(section) && has(section, b"ifname")
}

/// Whether it is a named interface of type `bridge` without `device`.
pub fn is_bridged(section: &Section) -> bool
    ensures { result ≡ spec.is_bridged section.now }
{
    is_named_interface(section) && is_bridge(section) && !has(section, b"device")
}

fn is_untyped(section: &Section) -> bool
    ensures { result ≡ spec.is_untyped section.now }
{
    is_named_interface(section) && !has(section, b"type")
}

fn is_on_one_device(alloc: Global, section: &Section) -> Result<bool, Memory>
    ensures { IfOk result (λ is. is ≡ spec.is_on_one_device section.now) }
{
    if !is_untyped(section) || has(section, b"device") {
        return Ok(false);
    }
    let words = ifname_words(alloc, section.options.as_slice())?;
    Ok(words.as_slice().len() == 1)
}

fn has_both(section: &Section) -> bool
    ensures { result ≡ spec.has_both section.now }
{
    is_untyped(section) && has(section, b"ifname") && has(section, b"device")
}

/// The name of the bridge of an interface.
pub fn bridge_name(alloc: Global, section: &Section) -> Result<Text, Memory>
    ensures { IfOk result (λ name. name ≡ spec.bridge_name section.now) }
{
    let mut name = Vec::from_slice(alloc, b"br-")?;
    name.extend_from_slice(section.name.as_bytes())?;
    Ok(Text::from_vec(name))
}

/// The section by the rules that look at it alone.
pub fn rewritten(alloc: Global, section: Section) -> Result<Section, Memory>
    ensures { IfOk result (λ new. new ≡ spec.rewritten section) }
{
    let is_old_bridge = is_old_bridge(&section);
    let is_on_one_device = is_on_one_device(alloc, &section)?;
    let has_both = has_both(&section);
    let Section {
        name,
        anonymous,
        kind,
        options,
    } = section;
    let mut options = options.into_vec();
    if is_old_bridge {
        put_ports(alloc, &mut options)?;
    } else if is_on_one_device {
        put_device(alloc, &mut options)?;
    } else if has_both {
        take_out(&mut options, b"ifname");
    }
    Ok(Section {
        name,
        anonymous,
        kind,
        options: Items::from_vec(options),
    })
}

/// The interface over its bridge, and the section of the bridge, which is added as this one of the
/// package's sections.
pub fn over_bridge(alloc: Global, section: Section, ordinal: u64) -> Result<OverBridge, Memory>
    ensures interface { IfOk result (λ both. both.interface ≡ spec.over_bridge section) }
    ensures bridge { IfOk result (λ both. both.bridge ≡ spec.bridge_section ordinal section) }
{
    let bridge = bridge_name(alloc, &section)?;
    let Section {
        name,
        anonymous,
        kind,
        options,
    } = section;
    let mut options = options.into_vec();
    let moved = move_to_bridge(alloc, &mut options, bridge.as_bytes())?;
    Ok(OverBridge {
        interface: Section {
            name,
            anonymous,
            kind,
            options: Items::from_vec(options),
        },
        bridge: Section {
            name: anonymous_name(alloc, ordinal, b"device")?,
            anonymous: true,
            kind: Text::from_bytes(alloc, b"device")?,
            options: Items::from_vec(moved),
        },
    })
}
