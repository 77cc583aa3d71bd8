ghost use Rattle.std.specs.Prelude.{◌≡◌, ◌∷◌, ◌++◌, codes, IfOk, OnOk};
ghost use Rattle.std.specs.List.{flat_map, list_any};
ghost use Rattle.uci_tree.specs.Print as print;
ghost use Rattle.uci_tree.specs.Print.{printed};

use crate::{Opt, Package, Section, Value};
use plane_io::{Memory, Text};
use std::alloc::Global;
use uci_text::quote_into;

/// The package as text.
///
/// Each section is an empty line, `config TYPE 'NAME'`, and behind a tab `option NAME 'VALUE'` for
/// each value and `list NAME 'ITEM'` for each item of a list; an empty line ends the text. Names of
/// sections, values and items stand in single quotes, and a single quote in them is written `'\''`.
/// A type stands bare, and one that holds any of `'` `"` `#` `;` and `\` is quoted as well.
///
/// With `header`, the line `package NAME` comes first. An anonymous section has no name, unless
/// `names` asks for it.
///
/// # Errors
///
/// `Memory` where there was not enough memory for the text.
pub fn print_package(
    alloc: Global,
    package: &Package,
    header: bool,
    names: bool,
) -> Result<Vec<u8>, Memory>
    ensures { IfOk result (λ text. text.items ≡ printed «package».now header names) }
{
    let mut out = Vec::new(alloc);
    print_header(&mut out, header, package.name.as_bytes())?;
    for section in package.sections.as_slice() {
        print_section(&mut out, names, section)?;
    }
    out.push(b'\n')?;
    Ok(out)
}

fn print_header(out: &mut Vec<u8>, header: bool, name: &[u8]) -> Result<(), Memory>
    ensures { OnOk result (out.new.items ≡ out.old.items ++ print.header_text header name.now) }
{
    if header {
        out.extend_from_slice(b"package ")?;
        out.extend_from_slice(name)?;
        out.push(b'\n')?;
    }
    Ok(())
}

fn print_section(out: &mut Vec<u8>, names: bool, section: &Section) -> Result<(), Memory>
    ensures { OnOk result (out.new.items ≡ out.old.items ++ print.section_text names section.now) }
{
    out.push(b'\n')?;
    print_head(out, names, section)?;
    for option in section.options.as_slice() {
        print_value(out, option.name.as_bytes(), &option.value)?;
    }
    Ok(())
}

fn print_head(out: &mut Vec<u8>, names: bool, section: &Section) -> Result<(), Memory>
    ensures { OnOk result (out.new.items ≡ out.old.items ++ print.head_text names section.now) }
{
    out.extend_from_slice(b"config ")?;
    print_kind(out, section.kind.as_bytes())?;
    print_name(out, names, section)?;
    out.push(b'\n')?;
    Ok(())
}

fn print_kind(out: &mut Vec<u8>, kind: &[u8]) -> Result<(), Memory>
    ensures { OnOk result (out.new.items ≡ out.old.items ++ print.kind_text kind.now) }
{
    if has_special(kind) {
        quote_into(out, kind)?;
    } else {
        out.extend_from_slice(kind)?;
    }
    Ok(())
}

fn has_special(kind: &[u8]) -> bool
    ensures { result ≡ list_any print.is_special kind.now }
{
    kind.iter()
        .any(|byte| matches!(*byte, b'\'' | b'"' | b'#' | b';' | b'\\'))
}

fn print_name(out: &mut Vec<u8>, names: bool, section: &Section) -> Result<(), Memory>
    ensures { OnOk result (out.new.items ≡ out.old.items ++ print.name_text names section.now) }
{
    if section.anonymous && !names {
        return Ok(());
    }
    out.push(b' ')?;
    quote_into(out, section.name.as_bytes())
}

fn print_value(out: &mut Vec<u8>, name: &[u8], value: &Value) -> Result<(), Memory>
    ensures { OnOk result (out.new.items ≡ out.old.items ++ print.value_text name.now value.now) }
{
    match value {
        Value::One(text) => print_line(out, b"option", name, text.as_bytes()),
        Value::Many(items) => print_items(out, name, items.as_slice()),
    }
}

fn print_items(out: &mut Vec<u8>, name: &[u8], items: &[Text]) -> Result<(), Memory>
    ensures { OnOk result (out.new.items ≡
        out.old.items ++ flat_map (print.option_line (codes "list") name.now) items.now) }
{
    for item in items {
        print_line(out, b"list", name, item.as_bytes())?;
    }
    Ok(())
}

fn print_line(out: &mut Vec<u8>, keyword: &[u8], name: &[u8], value: &[u8]) -> Result<(), Memory>
    ensures { OnOk result
        (out.new.items ≡ out.old.items ++ print.option_line keyword.now name.now value.now) }
{
    out.push(b'\t')?;
    out.extend_from_slice(keyword)?;
    out.push(b' ')?;
    out.extend_from_slice(name)?;
    out.push(b' ')?;
    quote_into(out, value)?;
    out.push(b'\n')?;
    Ok(())
}
