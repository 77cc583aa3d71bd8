ghost use Rattle.std.specs.Prelude.{◌≡◌, IfOk};

use crate::{Opt, Package, Section, Value};
use plane_io::{Items, Memory, Text};
use std::alloc::Global;

/// The same package, in memory of its own.
pub fn copy_package(alloc: Global, package: &Package) -> Result<Package, Memory>
    ensures { IfOk result (λ copy. copy ≡ «package».now) }
{
    Ok(Package {
        name: package.name.copy()?,
        sections: copy_sections(alloc, package.sections.as_slice())?,
        made: package.made,
    })
}

fn copy_sections(alloc: Global, sections: &[Section]) -> Result<Items<Section>, Memory>
    ensures { IfOk result (λ copy. copy ≡ sections.now) }
{
    let mut copies = Items::new(alloc);
    for section in sections {
        copies.push(copy_section(alloc, section)?)?;
    }
    Ok(copies)
}

fn copy_section(alloc: Global, section: &Section) -> Result<Section, Memory>
    ensures { IfOk result (λ copy. copy ≡ section.now) }
{
    Ok(Section {
        name: section.name.copy()?,
        anonymous: section.anonymous,
        kind: section.kind.copy()?,
        options: copy_options(alloc, section.options.as_slice())?,
    })
}

fn copy_options(alloc: Global, options: &[Opt]) -> Result<Items<Opt>, Memory>
    ensures { IfOk result (λ copy. copy ≡ options.now) }
{
    let mut copies = Items::new(alloc);
    for option in options {
        copies.push(Opt {
            name: option.name.copy()?,
            value: copy_value(alloc, &option.value)?,
        })?;
    }
    Ok(copies)
}

fn copy_value(alloc: Global, value: &Value) -> Result<Value, Memory>
    ensures { IfOk result (λ copy. copy ≡ value.now) }
{
    match value {
        Value::One(text) => Ok(Value::One(text.copy()?)),
        Value::Many(items) => Ok(Value::Many(copy_texts(alloc, items.as_slice())?)),
    }
}

fn copy_texts(alloc: Global, texts: &[Text]) -> Result<Items<Text>, Memory>
    ensures { IfOk result (λ copy. copy ≡ texts.now) }
{
    let mut copies = Items::new(alloc);
    for text in texts {
        copies.push(text.copy()?)?;
    }
    Ok(copies)
}
