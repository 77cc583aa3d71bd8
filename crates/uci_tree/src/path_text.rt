ghost use Rattle.std.specs.Prelude.{◌≡◌, ◌∷◌, ℤ, Err, IfOk, IfSome, IfNone};
ghost use Rattle.std.specs.Option.{option_copied};
ghost use Rattle.uci_text.specs.Byte.{dot, at_sign};
ghost use Rattle.uci_tree.specs.Split.{HasNone};
ghost use Rattle.uci_tree.specs.declared.path.Path.{Path};
ghost use Rattle.uci_tree.specs.declared.path.SectionRef.{SectionRef};
ghost use Rattle.uci_tree.specs.Path.{SpellsIndex, SpellsRef, SpellsPath};

use crate::split::{cut_first, cut_last, cut_option};
use crate::{Path, SectionRef};
use plane_io::{Memory, Text};
use std::alloc::Global;
use std::str;
use uci_text::{ByteClass, is_name};

/// Why a text is not read as a path.
#[derive(Clone, Copy)]
enum PathError {
    NoPath,
    Memory,
}

impl From<Memory> for PathError {
    ghost use Rattle.std.specs.Prelude.{◌≡◌};
    ghost use Rattle.uci_tree.specs.declared.path_text.PathError.TheVariants.{Memory as NoMemory};

    ghost from_gives = { λ _ error. error ≡ NoMemory };

    fn from(_error: Memory) -> PathError {
        PathError::Memory
    }
}

/// Reads a path: `PACKAGE`, `PACKAGE.SECTION` or `PACKAGE.SECTION.OPTION`. A section is its name or
/// `@TYPE[INDEX]`, the index being a decimal of 32 bits with an optional `-`. `None` where the text
/// is no path.
pub fn read_path(alloc: Global, text: &[u8]) -> Result<Option<Path>, Memory>
    ensures found { IfOk result (λ found. IfSome found (λ path. SpellsPath text.now path)) }
    ensures only { IfOk result (λ found.
        IfSome found (λ path. (other : Path) → SpellsPath text.now other → other ≡ path)) }
    ensures none { IfOk result (λ found.
        IfNone found ((path : Path) → SpellsPath text.now path → ⊥)) }
{
    match path_of(alloc, text) {
        Ok(path) => Ok(Some(path)),
        Err(PathError::NoPath) => Ok(None),
        Err(PathError::Memory) => Err(Memory),
    }
}

fn path_of(alloc: Global, text: &[u8]) -> Result<Path, PathError>
    ensures found { IfOk result (λ path. SpellsPath text.now path) }
    ensures none { result ≡ Err PathError.NoPath → (path : Path) → SpellsPath text.now path → ⊥ }
{
    let Some((name, place)) = cut_first(text, b'.') else {
        return package_path(alloc, text);
    };
    if !is_name(ByteClass::PackageName, name) {
        return Err(PathError::NoPath);
    }
    let (section, option) = cut_option(place);
    Ok(Path {
        section: Some(read_ref(alloc, section)?),
        option: copy_option(alloc, option)?,
        package: Text::from_bytes(alloc, name)?,
    })
}

fn package_path(alloc: Global, text: &[u8]) -> Result<Path, PathError>
    requires { HasNone dot text.now }
    ensures found { IfOk result (λ path. SpellsPath text.now path) }
    ensures none { result ≡ Err PathError.NoPath → (path : Path) → SpellsPath text.now path → ⊥ }
{
    if !is_name(ByteClass::PackageName, text) {
        return Err(PathError::NoPath);
    }
    Ok(Path {
        package: Text::from_bytes(alloc, text)?,
        section: None,
        option: None,
    })
}

fn copy_option(alloc: Global, name: Option<&[u8]>) -> Result<Option<Text>, Memory>
    ensures { IfOk result (λ copy. copy ≡ option_copied name.entry) }
{
    match name {
        Some(bytes) => Ok(Some(Text::from_bytes(alloc, bytes)?)),
        None => Ok(None),
    }
}

fn read_ref(alloc: Global, text: &[u8]) -> Result<SectionRef, PathError>
    ensures found { IfOk result (λ reference. SpellsRef text.now reference) }
    ensures none { result ≡ Err PathError.NoPath →
        (reference : SectionRef) → SpellsRef text.now reference → ⊥ }
{
    if let Some(behind) = text.strip_prefix(b"@") {
        return read_place(alloc, behind);
    }
    if !is_name(ByteClass::Name, text) {
        return Err(PathError::NoPath);
    }
    Ok(SectionRef::Name(Text::from_bytes(alloc, text)?))
}

/// Reads what is behind the `@` of a section by its place.
fn read_place(alloc: Global, text: &[u8]) -> Result<SectionRef, PathError>
    ensures found { IfOk result (λ reference. SpellsRef (at_sign ∷ text.now) reference) }
    ensures none { result ≡ Err PathError.NoPath →
        (reference : SectionRef) → SpellsRef (at_sign ∷ text.now) reference → ⊥ }
{
    let Some((inner, end)) = cut_last(text, b']') else {
        return Err(PathError::NoPath);
    };
    let Some((kind, digits)) = cut_last(inner, b'[') else {
        return Err(PathError::NoPath);
    };
    if !end.is_empty() {
        return Err(PathError::NoPath);
    }
    if !is_name(ByteClass::Printable, kind) {
        return Err(PathError::NoPath);
    }
    let Some(index) = read_index(digits) else {
        return Err(PathError::NoPath);
    };
    Ok(SectionRef::Place {
        kind: Text::from_bytes(alloc, kind)?,
        index,
    })
}

fn read_index(digits: &[u8]) -> Option<i32>
    ensures found { IfSome result (λ index. SpellsIndex digits.now index) }
    ensures none { IfNone result ((index : ℤ) → SpellsIndex digits.now index → ⊥) }
{
    // A number for `parse` may begin with a plus.
    if digits.starts_with(b"+") {
        return None;
    }
    let Ok(text) = str::from_utf8(digits) else {
        return None;
    };
    let Ok(index) = text.parse::<i32>() else {
        return None;
    };
    Some(index)
}
