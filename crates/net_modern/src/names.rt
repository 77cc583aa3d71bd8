ghost use Rattle.std.specs.Prelude.{◌≡◌, [], ◌∷◌, IfOk, OnOk};
ghost use Rattle.net_modern.specs.Names.{AreNames, AddsNames};

use crate::rules::is_device;
use net_rows::text_of;
use plane_io::{Memory, Text};
use std::alloc::Global;
use std::collections::BTreeSet;
use uci_tree::Section;

/// The names that the `device` sections have.
pub fn device_names(alloc: Global, sections: &[Section]) -> Result<BTreeSet<Text>, Memory>
    ensures { IfOk result (λ names. AreNames names sections.now) }
{
    let mut names = BTreeSet::new(alloc);
    for section in sections {
        add_name_of(alloc, &mut names, section)?;
    }
    Ok(names)
}

/// Adds the name of the section, where it is a `device` section and has one.
pub fn add_name_of(
    alloc: Global,
    names: &mut BTreeSet<Text>,
    section: &Section,
) -> Result<(), Memory>
    ensures { OnOk result (AddsNames names.old names.new (section.now ∷ [])) }
{
    if !is_device(section) {
        return Ok(());
    }
    let Some(name) = text_of(section.options.as_slice(), b"name") else {
        return Ok(());
    };
    let _is_new = names.insert(Text::from_bytes(alloc, name)?)?;
    Ok(())
}
