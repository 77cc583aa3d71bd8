//! Packages that are looked at.
use crate::show::put_line;
use std::alloc::Global;
use uci_tree::{Package, Place, anonymous_name, find, print_package, read_path};

/// The name of an anonymous section.
pub(crate) fn show_name(
    alloc: Global,
    ordinal: &str,
    kind: &str,
    out: &mut Vec<u8>,
) -> anyhow::Result<()> {
    let name = anonymous_name(alloc, ordinal.parse()?, kind.as_bytes())?;
    put_line(out, name.as_bytes())
}

/// The text of a package, with what the words ask for.
pub(crate) fn print(
    alloc: Global,
    package: &Package,
    words: &[&str],
    out: &mut Vec<u8>,
) -> anyhow::Result<()> {
    let (header, names) = match words {
        [] => (false, false),
        ["header"] => (true, false),
        ["names"] => (false, true),
        ["header", "names"] => (true, true),
        _ => return Err(anyhow::anyhow!("no such print")),
    };
    let text = print_package(alloc, package, header, names)?;
    out.extend_from_slice(&text)?;
    Ok(())
}

/// Where a path leads in a package.
pub(crate) fn show_path(
    alloc: Global,
    package: &Package,
    path: &str,
    out: &mut Vec<u8>,
) -> anyhow::Result<()> {
    let Some(path) = read_path(alloc, path.as_bytes())? else {
        return put_line(out, b"no path");
    };
    let line = match find(package, &path) {
        None => return put_line(out, b"nothing"),
        Some(
            Place {
                section,
                option: None,
            },
        ) => format!(in alloc; "section {section}")?,
        Some(
            Place {
                section,
                option: Some(option),
            },
        ) => { format!(in alloc; "section {section} option {option}")? }
    };
    put_line(out, line.as_bytes())
}
