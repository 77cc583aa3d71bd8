ghost use Rattle.std.specs.Prelude.{◌≡◌, ◌++◌, IfOk, OnOk};
ghost use Rattle.uci_cli.specs.Get as spec;

use crate::values::give_value;
use plane_io::{Memory, Text};
use std::alloc::Global;
use uci_tree::{Package, Path, Place, Section, find};

/// What `get` prints of what the path leads to: the value of an option, or the type of a section.
/// `None` where it leads to nothing. The path's package is not looked at.
///
/// # Errors
///
/// Want of memory.
pub fn give_path(
    alloc: Global,
    between: &[u8],
    package: &Package,
    path: &Path,
) -> Result<Option<Text>, Memory>
    ensures { IfOk result (λ text. text ≡ spec.given_path between.now «package».now path.now) }
{
    let Some(place) = find(package, path) else {
        return Ok(None);
    };
    let Some(text) = give_at(alloc, between, package, place)? else {
        return Ok(None);
    };
    let mut line = text.into_vec();
    line.push(b'\n')?;
    Ok(Some(Text::from_vec(line)))
}

fn give_at(
    alloc: Global,
    between: &[u8],
    package: &Package,
    place: Place,
) -> Result<Option<Text>, Memory>
    ensures { IfOk result (λ text. text ≡ spec.given_at between.now «package».now place) }
{
    match package.sections.as_slice().get(place.section) {
        Some(section) => give_in(alloc, between, section, place.option),
        None => Ok(None),
    }
}

fn give_in(
    alloc: Global,
    between: &[u8],
    section: &Section,
    option: Option<usize>,
) -> Result<Option<Text>, Memory>
    ensures { IfOk result (λ text. text ≡ spec.given_in between.now section.now option) }
{
    let Some(place) = option else {
        return Ok(Some(section.kind.copy()?));
    };
    let Some(option) = section.options.as_slice().get(place) else {
        return Ok(None);
    };
    let mut out = Vec::new(alloc);
    give_value(&mut out, between, &option.value)?;
    Ok(Some(Text::from_vec(out)))
}
