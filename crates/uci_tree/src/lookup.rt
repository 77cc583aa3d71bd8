ghost use Rattle.std.specs.Prelude.{◌≡◌, count_by, position, bytes_eq, slice_get};
ghost use Rattle.uci_tree.specs.Find as spec;

use crate::{Opt, Package, Path, Section, SectionRef};
use plane_io::Text;

/// Where in a package something is: the place of a section, and perhaps the place of an option in
/// it, from 0.
#[derive(Clone, Copy)]
pub struct Place {
    pub section: usize,
    pub option: Option<usize>,
}

/// Where in the package the path leads: to the first section of that name or place, and where the
/// path has an option, to the first option of that name in it. `None` where one of them is missing
/// or the path has no section. The path's package name is not looked at.
pub fn find(package: &Package, path: &Path) -> Option<Place>
    ensures { result ≡ spec.place_of «package».now path.now }
{
    let Some(reference) = &path.section else {
        return None;
    };
    let sections = package.sections.as_slice();
    let Some(place) = section_place(sections, reference) else {
        return None;
    };
    let Some(section) = sections.get(place) else {
        return None;
    };
    place_in(section, place, &path.option)
}

fn place_in(section: &Section, place: usize, option: &Option<Text>) -> Option<Place>
    ensures { result ≡ spec.place_in section.now place option.now }
{
    let Some(name) = option else {
        return Some(Place {
            section: place,
            option: None,
        });
    };
    let Some(found) = option_place(section.options.as_slice(), name.as_bytes()) else {
        return None;
    };
    Some(Place {
        section: place,
        option: Some(found),
    })
}

fn section_place(sections: &[Section], reference: &SectionRef) -> Option<usize>
    ensures { result ≡ spec.section_place sections.now reference.now }
{
    match reference {
        SectionRef::Name(name) => named_place(sections, name.as_bytes()),
        SectionRef::Place { kind, index } => place_of_kind(sections, kind.as_bytes(), *index),
    }
}

/// The place of the first section of this name, from 0.
pub fn named_place(sections: &[Section], name: &[u8]) -> Option<usize>
    ensures { result ≡ spec.named_place sections.now name.now }
{
    sections
        .iter()
        .position(|section| section.name.as_bytes() == name)
}

/// The place of the first option of this name, from 0.
pub fn option_place(options: &[Opt], name: &[u8]) -> Option<usize>
    ensures { result ≡ spec.option_place options.now name.now }
{
    options
        .iter()
        .position(|option| option.name.as_bytes() == name)
}

fn place_of_kind(sections: &[Section], kind: &[u8], index: i32) -> Option<usize>
    ensures { result ≡ spec.place_of_kind sections.now kind.now index }
{
    let distance = index.unsigned_abs() as usize;
    if index >= 0 {
        return nth_of_kind(sections, kind, distance);
    }
    let count = count_of_kind(sections, kind);
    if count < distance {
        return None;
    }
    nth_of_kind(sections, kind, count - distance)
}

fn count_of_kind(sections: &[Section], kind: &[u8]) -> usize
    ensures { result ≡ count_by (λ section. bytes_eq section.kind kind.now) sections.now }
{
    sections
        .iter()
        .filter(|section| section.kind.as_bytes() == kind)
        .count()
}

fn nth_of_kind(sections: &[Section], kind: &[u8], nth: usize) -> Option<usize>
    ensures { result ≡ slice_get (spec.places kind.now sections.now) nth }
{
    let mut left = nth;
    for (place, section) in sections.iter().enumerate() {
        if section.kind.as_bytes() == kind {
            if left == 0 {
                return Some(place);
            }
            left -= 1;
        }
    }
    None
}
