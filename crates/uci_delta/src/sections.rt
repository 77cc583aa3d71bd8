ghost use Rattle.std.specs.Prelude.{◌≡◌, ◌<◌, [], ◌∷◌, false, true, length, slice_index_or, Some};
ghost use Rattle.std.specs.Prelude.{IfErr, OnOk, OnErr, Ok};
ghost use Rattle.std.specs.List.{remove};
ghost use Rattle.uci_tree.specs.declared.package.Section.{Section};
ghost use Rattle.uci_tree.specs.Find.{named_place as place_of_name};
ghost use Rattle.uci_delta.specs.DeltaError.{IsRefusalOf};
ghost use Rattle.uci_delta.specs.Sections as spec;

use crate::names::is_named;
use crate::options::change_option;
use crate::place::read_place;
use crate::{Change, DeltaError};
use plane_io::{Items, Memory, Text};
use std::alloc::Global;
use std::mem;
use uci_text::ByteClass;
use uci_tree::{Section, named_place};

/// Changes the section of this name, which has this place.
pub fn change_section(
    alloc: Global,
    sections: &mut Vec<Section>,
    place: Option<usize>,
    name: &Text,
    change: &Change,
) -> Result<(), DeltaError>
    requires { place ≡ place_of_name sections.old.items name.now }
    ensures done { OnOk result
        (spec.sections_with name.now change.now sections.old.items ≡ Ok sections.new.items) }
    ensures refused { IfErr result
        (IsRefusalOf (spec.sections_with name.now change.now sections.old.items)) }
    ensures kept { OnErr result (sections.new.items ≡ sections.old.items) }
{
    match change {
        Change::Set(kind) => set_kind(alloc, sections, place, name, kind),
        Change::Remove => remove_section(sections, place, name),
        Change::Add(kind) => add_anonymous(alloc, sections, place, name, kind),
        Change::Rename(new) => rename_section(sections, place, name, new),
        Change::Reorder(digits) => reorder(sections, place, name, digits),
        Change::ListAdd(_) | Change::ListDel(_) => Err(DeltaError::Invalid),
    }
}

fn are_named(name: &Text, kind: &Text) -> bool
    ensures { result ≡ spec.are_named name.now kind.now }
{
    is_named(ByteClass::Name, name) && is_named(ByteClass::Printable, kind)
}

/// Adds a section without options at the end.
fn push_section(
    alloc: Global,
    sections: &mut Vec<Section>,
    name: &Text,
    anonymous: bool,
    kind: &Text,
) -> Result<(), Memory>
    ensures done { OnOk result
        (sections.new.items ≡ spec.with_new name.now anonymous kind.now sections.old.items) }
    ensures kept { OnErr result (sections.new.items ≡ sections.old.items) }
{
    let section = Section {
        name: name.copy()?,
        anonymous,
        kind: kind.copy()?,
        options: Items::new(alloc),
    };
    sections.push(section)?;
    Ok(())
}

fn set_kind(
    alloc: Global,
    sections: &mut Vec<Section>,
    place: Option<usize>,
    name: &Text,
    kind: &Text,
) -> Result<(), DeltaError>
    requires { place ≡ place_of_name sections.old.items name.now }
    ensures done { OnOk result
        (spec.sections_with name.now (Change.Set kind.now) sections.old.items
        ≡ Ok sections.new.items) }
    ensures refused { IfErr result
        (IsRefusalOf (spec.sections_with name.now (Change.Set kind.now) sections.old.items)) }
    ensures kept { OnErr result (sections.new.items ≡ sections.old.items) }
{
    if !are_named(name, kind) {
        return Err(DeltaError::Invalid);
    }
    let Some(place) = place else {
        push_section(alloc, sections, name, false, kind)?;
        return Ok(());
    };
    let kind = kind.copy()?;
    sections[place].kind = kind;
    Ok(())
}

fn remove_section(
    sections: &mut Vec<Section>,
    place: Option<usize>,
    name: &Text,
) -> Result<(), DeltaError>
    requires { place ≡ place_of_name sections.old.items name.now }
    ensures done { OnOk result
        (spec.sections_with name.now Change.Remove sections.old.items ≡ Ok sections.new.items) }
    ensures refused { IfErr result
        (IsRefusalOf (spec.sections_with name.now Change.Remove sections.old.items)) }
    ensures kept { OnErr result (sections.new.items ≡ sections.old.items) }
{
    let Some(place) = place else {
        return Err(DeltaError::NotFound);
    };
    let _gone = sections.remove(place);
    Ok(())
}

fn add_anonymous(
    alloc: Global,
    sections: &mut Vec<Section>,
    place: Option<usize>,
    name: &Text,
    kind: &Text,
) -> Result<(), DeltaError>
    requires { place ≡ place_of_name sections.old.items name.now }
    ensures done { OnOk result
        (spec.sections_with name.now (Change.Add kind.now) sections.old.items
        ≡ Ok sections.new.items) }
    ensures refused { IfErr result
        (IsRefusalOf (spec.sections_with name.now (Change.Add kind.now) sections.old.items)) }
    ensures kept { OnErr result (sections.new.items ≡ sections.old.items) }
{
    if !are_named(name, kind) {
        return Err(DeltaError::Invalid);
    }
    let None = place else {
        return Err(DeltaError::Duplicate);
    };
    push_section(alloc, sections, name, true, kind)?;
    Ok(())
}

fn rename_section(
    sections: &mut Vec<Section>,
    place: Option<usize>,
    name: &Text,
    new: &Text,
) -> Result<(), DeltaError>
    requires { place ≡ place_of_name sections.old.items name.now }
    ensures done { OnOk result
        (spec.section_renamed name.now new.now sections.old.items ≡ Ok sections.new.items) }
    ensures refused { IfErr result
        (IsRefusalOf (spec.section_renamed name.now new.now sections.old.items)) }
    ensures kept { OnErr result (sections.new.items ≡ sections.old.items) }
{
    let Some(place) = place else {
        return Err(DeltaError::NotFound);
    };
    if !is_named(ByteClass::Name, new) {
        return Err(DeltaError::Invalid);
    }
    let None = named_place(sections.as_slice(), new.as_bytes()) else {
        return Err(DeltaError::Duplicate);
    };
    let new = new.copy()?;
    let section = &mut sections[place];
    section.name = new;
    section.anonymous = false;
    Ok(())
}

fn reorder(
    sections: &mut Vec<Section>,
    place: Option<usize>,
    name: &Text,
    digits: &Text,
) -> Result<(), DeltaError>
    requires { place ≡ place_of_name sections.old.items name.now }
    ensures done { OnOk result
        (spec.reordered name.now digits.now sections.old.items ≡ Ok sections.new.items) }
    ensures refused { IfErr result
        (IsRefusalOf (spec.reordered name.now digits.now sections.old.items)) }
    ensures kept { OnErr result (sections.new.items ≡ sections.old.items) }
{
    let Some(from) = place else {
        return Err(DeltaError::NotFound);
    };
    let Some(to) = read_place(digits.as_bytes()) else {
        return Err(DeltaError::Invalid);
    };
    move_section(sections, from, to as usize);
    Ok(())
}

/// Moves the section from one place to another among the others, or to the end.
fn move_section(sections: &mut Vec<Section>, from: usize, to: usize)
    requires { from < length sections.old.items }
    ensures { (section : Section) → section ≡ slice_index_or sections.old.items from section →
        Ok sections.new.items
        ≡ spec.put_at (Some to) (section ∷ []) (remove sections.old.items from) }
{
    let section = sections.remove(from);
    let to = to.min(sections.len());
    let Ok(()) = sections.insert(to, section) else {
        unreachable!()
    };
}

/// Changes the option of this name in the section of this name, which has this place.
pub fn change_option_of(
    alloc: Global,
    sections: &mut Vec<Section>,
    place: Option<usize>,
    name: &Text,
    option: &Text,
    change: &Change,
) -> Result<(), DeltaError>
    requires { place ≡ place_of_name sections.old.items name.now }
    ensures done { OnOk result
        (spec.sections_with_option name.now option.now change.now sections.old.items
        ≡ Ok sections.new.items) }
    ensures refused { IfErr result (IsRefusalOf
        (spec.sections_with_option name.now option.now change.now sections.old.items)) }
    ensures kept { OnErr result (sections.new.items ≡ sections.old.items) }
{
    let Some(place) = place else {
        return Err(lack_of(change));
    };
    change_in(alloc, &mut sections[place], option, change)
}

fn lack_of(change: &Change) -> DeltaError
    ensures { result ≡ spec.lack_of change.now }
{
    match change {
        Change::Remove | Change::Rename(_) => DeltaError::NotFound,
        _ => DeltaError::Invalid,
    }
}

/// Changes the option of this name in the section.
fn change_in(
    alloc: Global,
    section: &mut Section,
    option: &Text,
    change: &Change,
) -> Result<(), DeltaError>
    ensures done { OnOk result
        (spec.in_section option.now change.now section.old ≡ Ok (section.new ∷ [])) }
    ensures refused { IfErr result
        (IsRefusalOf (spec.in_section option.now change.now section.old)) }
    ensures kept { OnErr result (section.new ≡ section.old) }
{
    let mut options = mem::replace(&mut section.options, Items::new(alloc)).into_vec();
    let changed = change_option(alloc, &mut options, option, change);
    section.options = Items::from_vec(options);
    changed
}
