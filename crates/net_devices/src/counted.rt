ghost use Rattle.std.specs.Prelude.{◌≡◌, ◌++◌, IfOk, OnOk};
ghost use Rattle.net_devices.specs.Counted as spec;
ghost use Rattle.net_devices.specs.EachOnce.{has, with_name};
ghost use Rattle.net_devices.specs.FoundNames.{own_name, is_among, unless_named, with_own_name};
ghost use Rattle.net_devices.specs.Said.{said_by};

use crate::each_once::NamesOnce;
use crate::kinds::name_if_read;
use crate::said::{Said, said_in};
use kern_model::DevName;
use net_rows::stated_name;
use plane_io::{Items, Memory};
use std::alloc::Global;
use uci_tree::Section;

/// What the sections that count say about the names of network devices, in file order. Of several
/// `device` sections of one name the last one counts.
pub fn all_said(alloc: Global, sections: &[Section]) -> Result<Items<Said>, Memory>
    ensures { IfOk result (λ said. said ≡ spec.all_said sections.now) }
{
    let mut said = Vec::new(alloc);
    let mut names = NamesOnce::new(alloc);
    for place in (0..sections.len()).rev() {
        add_said(alloc, &mut said, &mut names, &sections[place])?;
    }
    said.reverse();
    Ok(Items::from_vec(said))
}

// Adds what a section says, where it is not of one of the names. They are those of later sections.
fn add_said(
    alloc: Global,
    said: &mut Vec<Said>,
    names: &mut NamesOnce,
    section: &Section,
) -> Result<(), Memory>
    ensures said { OnOk result
        (said.new.items ≡ said.old.items ++ said_by (unless_named names.old section.now)) }
    ensures names { OnOk result (names.new ≡ with_own_name names.old section.now) }
{
    if note_name(names, section)? {
        return Ok(());
    }
    let Some(saying) = said_in(alloc, section)? else {
        return Ok(());
    };
    said.push(saying)?;
    Ok(())
}

// Notes the name of a `device` section, and tells whether it was there.
fn note_name(names: &mut NamesOnce, section: &Section) -> Result<bool, Memory>
    ensures same { IfOk result (λ same. same ≡ is_among names.old (own_name section.now)) }
    ensures names { OnOk result (names.new ≡ with_own_name names.old section.now) }
{
    match own_name(section) {
        Some(name) => add_own_name(names, &name),
        None => Ok(false),
    }
}

fn add_own_name(names: &mut NamesOnce, name: &DevName) -> Result<bool, Memory>
    ensures same { IfOk result (λ same. same ≡ has names.old name.now) }
    ensures names { OnOk result (names.new ≡ with_name names.old name.now) }
{
    let added = names.add(name)?;
    Ok(!added)
}

// The name that a `device` section gives.
fn own_name(section: &Section) -> Option<DevName>
    ensures { result ≡ own_name section.now }
{
    if !is_device(section) {
        return None;
    }
    name_if_read(&stated_name(section.options.as_slice(), b"name"))
}

/// Whether it is a `device` section.
pub fn is_device(section: &Section) -> bool
    ensures { result ≡ spec.is_device section.now }
{
    section.kind.as_bytes() == b"device".as_slice()
}
