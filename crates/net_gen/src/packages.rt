ghost use Rattle.std.specs.Prelude.{◌≡◌, ◌++◌, OnOk, IfOk, decimal};
ghost use Rattle.net_gen.specs.Packages as spec;

use itoa::Buffer;
use plane_io::{Items, Memory, Text};
use std::alloc::Global;
use uci_tree::{Opt, Package, Section, Value};

/// Which interfaces of a network stand.
#[derive(Clone, Copy)]
pub(crate) enum Standing {
    /// All of them.
    All,
    /// Those whose number is no multiple of 3.
    WithoutThirds,
}

/// A package that says nothing.
pub(crate) fn no_package(alloc: Global) -> Package
    ensures { result ≡ spec.no_package }
{
    Package {
        name: Text::from_vec(Vec::new(alloc)),
        sections: Items::new(alloc),
        made: 0,
    }
}

/// The network of so many bridges, with the interfaces that stand.
#[tactic(auto, using(crate::proofs::PackageLemmas::sections_more))]
pub(crate) fn network(alloc: Global, standing: Standing, count: u32) -> Result<Package, Memory>
    ensures { IfOk result (λ network. network ≡ spec.network standing count) }
{
    let mut sections = Vec::new(alloc);
    for before in 0..count {
        push_sections(alloc, standing, before + 1, &mut sections)?;
    }
    let name = Text::from_bytes(alloc, b"network")?;
    let made = sections.len() as u64;
    Ok(Package {
        name,
        sections: Items::from_vec(sections),
        made,
    })
}

// Adds the sections of a number.
fn push_sections(
    alloc: Global,
    standing: Standing,
    number: u32,
    sections: &mut Vec<Section>,
) -> Result<(), Memory>
    ensures { OnOk result
        (sections.new.items ≡ sections.old.items ++ spec.sections_of standing number) }
{
    let bridge = bridge(alloc, number)?;
    sections.push(bridge)?;
    if stands(standing, number) {
        let interface = interface(alloc, number)?;
        sections.push(interface)?;
    }
    Ok(())
}

// Whether the interface of a number stands.
fn stands(standing: Standing, number: u32) -> bool
    ensures { result ≡ spec.stands standing number }
{
    match standing {
        Standing::All => true,
        Standing::WithoutThirds => number % 3 != 0,
    }
}

// The bridge of a number.
fn bridge(alloc: Global, number: u32) -> Result<Section, Memory>
    ensures { IfOk result (λ section. section ≡ spec.bridge number) }
{
    let bridge = numbered(alloc, b"b", number)?;
    let port = numbered(alloc, b"eth0.", number)?;
    let mut ports = Vec::new(alloc);
    ports.push(port)?;
    let mut options = Vec::new(alloc);
    options.push(option(alloc, b"name", bridge.copy()?)?)?;
    options.push(option(alloc, b"type", Text::from_bytes(alloc, b"bridge")?)?)?;
    options.push(Opt {
        name: Text::from_bytes(alloc, b"ports")?,
        value: Value::Many(Items::from_vec(ports)),
    })?;
    Ok(Section {
        name: bridge,
        anonymous: false,
        kind: Text::from_bytes(alloc, b"device")?,
        options: Items::from_vec(options),
    })
}

// The interface of a number.
fn interface(alloc: Global, number: u32) -> Result<Section, Memory>
    ensures { IfOk result (λ section. section ≡ spec.interface number) }
{
    let mut options = Vec::new(alloc);
    options.push(option(alloc, b"proto", Text::from_bytes(alloc, b"static")?)?)?;
    options.push(option(alloc, b"device", numbered(alloc, b"b", number)?)?)?;
    options.push(option(alloc, b"ipaddr", address(alloc, number)?)?)?;
    Ok(Section {
        name: numbered(alloc, b"n", number)?,
        anonymous: false,
        kind: Text::from_bytes(alloc, b"interface")?,
        options: Items::from_vec(options),
    })
}

// An option with one text.
fn option(alloc: Global, name: &[u8], value: Text) -> Result<Opt, Memory>
    ensures { IfOk result (λ option. option ≡ spec.option name.now value) }
{
    Ok(Opt {
        name: Text::from_bytes(alloc, name)?,
        value: Value::One(value),
    })
}

// A word with a number at its end.
fn numbered(alloc: Global, word: &[u8], number: u32) -> Result<Text, Memory>
    ensures { IfOk result (λ text. text ≡ word.now ++ decimal number) }
{
    let mut text = Vec::from_slice(alloc, word)?;
    append_number(number, &mut text)?;
    Ok(Text::from_vec(text))
}

// The address of the interface of a number.
fn address(alloc: Global, number: u32) -> Result<Text, Memory>
    ensures { IfOk result (λ text. text ≡ spec.address number) }
{
    let mut text = Vec::from_slice(alloc, b"10.")?;
    append_number(number / 256, &mut text)?;
    text.push(b'.')?;
    append_number(number % 256, &mut text)?;
    text.extend_from_slice(b".1/24")?;
    Ok(Text::from_vec(text))
}

fn append_number(number: u32, out: &mut Vec<u8>) -> Result<(), Memory>
    ensures { OnOk result (out.new.items ≡ out.old.items ++ decimal number) }
{
    let mut digits = Buffer::new();
    out.extend_from_slice(digits.format(number).as_bytes())?;
    Ok(())
}
