ghost use Rattle.std.specs.Prelude.{◌≡◌, ◌++◌, ◌<◌, [], count_by, bytes_eq, take, length, IfOk};
ghost use Rattle.std.specs.Prelude.{OnOk};
ghost use Rattle.std.specs.List.{flat_map};
ghost use Rattle.uci_cli.specs.Show as spec;

use crate::Options;
use crate::values::{append_number, show_value};
use plane_io::{Memory, Text};
use std::alloc::Global;
use uci_tree::{Opt, Package, Path, Place, Section, find};

/// What `show` prints of what the path leads to: of the whole package where it names no section.
/// `None` where it leads to nothing. The path's package is not looked at.
///
/// # Errors
///
/// Want of memory.
pub fn show_path(
    alloc: Global,
    options: &Options,
    package: &Package,
    path: &Path,
) -> Result<Option<Text>, Memory>
    ensures { IfOk result (λ text. text ≡ spec.shown_path options.now «package».now path.now) }
{
    if path.section.is_none() {
        return Ok(Some(show_package(alloc, options, package)?));
    }
    match find(package, path) {
        Some(place) => show_at(alloc, options, package, place),
        None => Ok(None),
    }
}

/// What `show` prints of a package.
///
/// # Errors
///
/// Want of memory.
#[tactic(auto, using(crate::proofs::ShowLemmas::section_step))]
pub fn show_package(alloc: Global, options: &Options, package: &Package) -> Result<Text, Memory>
    ensures { IfOk result (λ text. text ≡ spec.shown options.now «package».now) }
{
    let mut out = Vec::new(alloc);
    let sections = package.sections.as_slice();
    for (place, section) in sections.iter().enumerate() {
        show_section(&mut out, options, package, place, section)?;
    }
    Ok(Text::from_vec(out))
}

fn show_section(
    out: &mut Vec<u8>,
    options: &Options,
    package: &Package,
    place: usize,
    section: &Section,
) -> Result<(), Memory>
    requires { place < length «package».now.sections }
    ensures { OnOk result (out.new.items ≡ out.old.items ++ spec.shown_section options.now
        «package».now.name (take place «package».now.sections) section.now) }
{
    let path = section_path(*out.allocator(), options, package, place, section)?;
    show_lines(out, options.between.as_bytes(), path.as_bytes(), section)
}

fn show_lines(
    out: &mut Vec<u8>,
    between: &[u8],
    path: &[u8],
    section: &Section,
) -> Result<(), Memory>
    ensures { OnOk result
        (out.new.items ≡ out.old.items ++ spec.section_lines between.now path.now section.now) }
{
    out.extend_from_slice(path)?;
    out.push(b'=')?;
    out.extend_from_slice(section.kind.as_bytes())?;
    out.push(b'\n')?;
    for option in section.options.as_slice() {
        show_option(out, between, path, option)?;
    }
    Ok(())
}

fn show_option(out: &mut Vec<u8>, between: &[u8], path: &[u8], option: &Opt) -> Result<(), Memory>
    ensures { OnOk result
        (out.new.items ≡ out.old.items ++ spec.option_line between.now path.now option.now) }
{
    out.extend_from_slice(path)?;
    out.push(b'.')?;
    out.extend_from_slice(option.name.as_bytes())?;
    out.push(b'=')?;
    show_value(out, between, &option.value)?;
    out.push(b'\n')?;
    Ok(())
}

/// What stands before `=` in the line of a section.
fn section_path(
    alloc: Global,
    options: &Options,
    package: &Package,
    place: usize,
    section: &Section,
) -> Result<Text, Memory>
    requires { place < length «package».now.sections }
    ensures { IfOk result (λ path. path ≡ spec.section_path options.now
        «package».now.name (take place «package».now.sections) section.now) }
{
    let mut path = Vec::new(alloc);
    path.extend_from_slice(package.name.as_bytes())?;
    path.push(b'.')?;
    let sections = package.sections.as_slice();
    append_name(&mut path, options.by_name, &sections[..place], section)?;
    Ok(Text::from_vec(path))
}

fn append_name(
    out: &mut Vec<u8>,
    by_name: bool,
    before: &[Section],
    section: &Section,
) -> Result<(), Memory>
    ensures { OnOk result
        (out.new.items ≡ out.old.items ++ spec.called by_name before.now section.now) }
{
    if section.anonymous && !by_name {
        return append_place(out, before, section.kind.as_bytes());
    }
    out.extend_from_slice(section.name.as_bytes())?;
    Ok(())
}

fn append_place(out: &mut Vec<u8>, before: &[Section], kind: &[u8]) -> Result<(), Memory>
    ensures { OnOk result (out.new.items ≡ out.old.items ++ spec.place_name before.now kind.now) }
{
    out.push(b'@')?;
    out.extend_from_slice(kind)?;
    out.push(b'[')?;
    append_number(out, count_of_kind(before, kind) as u64)?;
    out.push(b']')?;
    Ok(())
}

fn count_of_kind(sections: &[Section], kind: &[u8]) -> usize
    ensures { result ≡ count_by (λ section. bytes_eq section.kind kind.now) sections.now }
{
    sections
        .iter()
        .filter(|section| section.kind.as_bytes() == kind)
        .count()
}

fn show_at(
    alloc: Global,
    options: &Options,
    package: &Package,
    place: Place,
) -> Result<Option<Text>, Memory>
    ensures { IfOk result (λ text. text ≡ spec.shown_at options.now «package».now place) }
{
    let Some(section) = package.sections.as_slice().get(place.section) else {
        return Ok(None);
    };
    let path = section_path(alloc, options, package, place.section, section)?;
    show_in(
        alloc,
        options.between.as_bytes(),
        path.as_bytes(),
        section,
        place.option,
    )
}

fn show_in(
    alloc: Global,
    between: &[u8],
    path: &[u8],
    section: &Section,
    option: Option<usize>,
) -> Result<Option<Text>, Memory>
    ensures { IfOk result (λ text. text ≡ spec.shown_by between.now path.now section.now option) }
{
    let mut out = Vec::new(alloc);
    let Some(place) = option else {
        show_lines(&mut out, between, path, section)?;
        return Ok(Some(Text::from_vec(out)));
    };
    let Some(option) = section.options.as_slice().get(place) else {
        return Ok(None);
    };
    show_option(&mut out, between, path, option)?;
    Ok(Some(Text::from_vec(out)))
}
