ghost use Rattle.std.specs.Prelude.{◌≡◌, IfErr, OnOk, OnErr, Ok};
ghost use Rattle.uci_tree.specs.Find.{named_place as place_of_name};
ghost use Rattle.uci_tree.specs.Valid.{IsValid};
ghost use Rattle.uci_delta.specs.Applied as spec;
ghost use Rattle.uci_delta.specs.DeltaError.{IsRefusalOf};

use crate::sections::{change_option_of, change_section};
use crate::{Delta, DeltaError};
use plane_io::{Items, Text};
use std::alloc::Global;
use std::mem;
use uci_tree::{Package, Section, named_place};

/// Applies the delta to the package. A path to a section means the first one of its name. The
/// delta's package is not looked at.
///
/// - `Set` of a section gives it a type, or adds a named section of that type at the end. `Add`
///   adds an anonymous one.
/// - `Set` of an option gives it a value in its place, or adds it at the end; an empty value
///   removes it where it is there.
/// - `Remove` removes a section or an option.
/// - `Rename` gives a section or an option another name, which none has yet; the section is named
///   then, and not anonymous.
/// - `Reorder` moves a section to a place among the others, from 0, or to the end where there are
///   no more.
/// - `ListAdd` appends to a list, makes a value the first item of one, or begins one.
/// - `ListDel` takes each item that is equal from a list, one value being a list of one, and an
///   option without items goes.
///
/// The number of sections that were made rises with each that comes.
///
/// # Errors
///
/// The package stays as it was. The shape goes first: `Invalid` for an addition or a move of an
/// option, and for an item of a section. Then `NotFound` where what is to go, to get a name or to
/// move is not there. Then `Invalid` where a name or a type is none, where the section of a new
/// value or of an item that comes or goes is not there, where a value has a zero byte, and where a
/// place is no decimal of 32 bits. Then `Duplicate` where the new name is there. `Memory` where
/// there was not enough memory.
pub fn apply(alloc: Global, package: &mut Package, delta: &Delta) -> Result<(), DeltaError>
    ensures done { OnOk result (spec.applied «package».old delta.now ≡ Ok «package».new) }
    ensures refused { IfErr result (IsRefusalOf (spec.applied «package».old delta.now)) }
    ensures kept { OnErr result («package».new ≡ «package».old) }
    ensures valid { OnOk result (IsValid «package».old → IsValid «package».new) }
{
    let mut sections = mem::replace(&mut package.sections, Items::new(alloc)).into_vec();
    let before = sections.len();
    let place = named_place(sections.as_slice(), delta.section.as_bytes());
    let changed = change(alloc, &mut sections, place, delta);
    let more = sections.len().saturating_sub(before);
    package.made = package.made.saturating_add(more as u64);
    package.sections = Items::from_vec(sections);
    changed
}

/// Does the change of the delta, whose section has this place.
pub fn change(
    alloc: Global,
    sections: &mut Vec<Section>,
    place: Option<usize>,
    delta: &Delta,
) -> Result<(), DeltaError>
    requires { place ≡ place_of_name sections.old.items delta.now.section }
    ensures done { OnOk result
        (spec.changed delta.now.section delta.now.option delta.now.change sections.old.items
        ≡ Ok sections.new.items) }
    ensures refused { IfErr result (IsRefusalOf
        (spec.changed delta.now.section delta.now.option delta.now.change sections.old.items)) }
    ensures kept { OnErr result (sections.new.items ≡ sections.old.items) }
{
    match &delta.option {
        None => change_section(alloc, sections, place, &delta.section, &delta.change),
        Some(option) => {
            change_option_of(
                alloc,
                sections,
                place,
                &delta.section,
                option,
                &delta.change,
            )
        }
    }
}
