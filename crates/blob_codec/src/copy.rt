ghost use Rattle.std.specs.Prelude.{◌≡◌, IfOk};

use crate::{Attr, Blob};
use plane_io::Memory;
use sqlite_items::Items;
use std::alloc::Global;

/// The same attributes, in memory of their own.
#[cycle(copy)]
pub fn copy_attrs(alloc: Global, attrs: &[Attr]) -> Result<Items<Attr>, Memory>
    ensures { IfOk result (λ copy. copy ≡ attrs.now) }
{
    let mut copies = Items::new(alloc);
    for attr in attrs {
        let name = attr.name.copy()?;
        let value = copy_blob(alloc, &attr.value)?;
        copies.push(Attr { name, value })?;
    }
    Ok(copies)
}

#[cycle(copy)]
fn copy_blob(alloc: Global, blob: &Blob) -> Result<Blob, Memory>
    ensures { IfOk result (λ copy. copy ≡ blob.now) }
{
    match blob {
        Blob::Unspec => Ok(Blob::Unspec),
        Blob::Array(attrs) => Ok(Blob::Array(copy_attrs(alloc, attrs.as_slice())?)),
        Blob::Table(attrs) => Ok(Blob::Table(copy_attrs(alloc, attrs.as_slice())?)),
        Blob::Str(text) => Ok(Blob::Str(text.copy()?)),
        Blob::I64(number) => Ok(Blob::I64(*number)),
        Blob::I32(number) => Ok(Blob::I32(*number)),
        Blob::I16(number) => Ok(Blob::I16(*number)),
        Blob::I8(number) => Ok(Blob::I8(*number)),
    }
}
