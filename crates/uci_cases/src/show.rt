//! What steps give, as lines.
use plane_io::Text;
use std::alloc::Global;
use uci_text::{Cmd, Line};
use uci_tree::{Package, Section, Value};

/// Puts a number on a line.
pub(crate) fn put_number(alloc: Global, out: &mut Vec<u8>, number: u64) -> anyhow::Result<()> {
    let text = format!(in alloc; "{number}\n")?;
    out.extend_from_slice(text.as_bytes())?;
    Ok(())
}

/// Puts a line.
pub(crate) fn put_line(out: &mut Vec<u8>, line: &[u8]) -> anyhow::Result<()> {
    out.extend_from_slice(line)?;
    out.push(b'\n')?;
    Ok(())
}

/// Tells why something is refused. Want of memory is no answer of a step.
pub(crate) fn put_error(
    alloc: Global,
    out: &mut Vec<u8>,
    number: u8,
    text: &str,
) -> anyhow::Result<()> {
    if number == 8 {
        return Err(anyhow::anyhow!("out of memory"));
    }
    let line = format!(in alloc; "error {number} {text}\n")?;
    out.extend_from_slice(line.as_bytes())?;
    Ok(())
}

/// Puts the number of a line, and words behind bars.
fn put_words(alloc: Global, out: &mut Vec<u8>, number: u32, words: &[&[u8]]) -> anyhow::Result<()> {
    let number = format!(in alloc; "{number}")?;
    out.extend_from_slice(number.as_bytes())?;
    for word in words {
        out.push(b'|')?;
        out.extend_from_slice(word)?;
    }
    out.push(b'\n')?;
    Ok(())
}

/// Shows a line of words.
pub(crate) fn show_line(alloc: Global, out: &mut Vec<u8>, line: &Line) -> anyhow::Result<()> {
    let mut words = Vec::new(alloc);
    for word in line.words.as_slice() {
        words.push(word.as_bytes())?;
    }
    put_words(alloc, out, line.line, &words)
}

/// Shows a command.
pub(crate) fn show_command(alloc: Global, out: &mut Vec<u8>, command: &Cmd) -> anyhow::Result<()> {
    match command {
        Cmd::Package { line, name } => {
            put_words(alloc, out, *line, &[b"package", name.as_bytes()])
        }
        Cmd::Config { line, kind, name } => show_config(alloc, out, *line, kind, name),
        Cmd::Item { line, name, value } => {
            put_words(
                alloc,
                out,
                *line,
                &[b"option", name.as_bytes(), value.as_bytes()],
            )
        }
        Cmd::ListItem { line, name, value } => {
            put_words(
                alloc,
                out,
                *line,
                &[b"list", name.as_bytes(), value.as_bytes()],
            )
        }
    }
}

fn show_config(
    alloc: Global,
    out: &mut Vec<u8>,
    line: u32,
    kind: &Text,
    name: &Option<Text>,
) -> anyhow::Result<()> {
    match name {
        None => put_words(alloc, out, line, &[b"config", kind.as_bytes()]),
        Some(name) => {
            put_words(
                alloc,
                out,
                line,
                &[b"config", kind.as_bytes(), name.as_bytes()],
            )
        }
    }
}

/// Shows a package, a line for each section.
pub(crate) fn show_package(out: &mut Vec<u8>, package: &Package) -> anyhow::Result<()> {
    for section in package.sections.as_slice() {
        show_section(out, section)?;
    }
    Ok(())
}

fn show_section(out: &mut Vec<u8>, section: &Section) -> anyhow::Result<()> {
    out.extend_from_slice(section.name.as_bytes())?;
    out.push(if section.anonymous { b'@' } else { b':' })?;
    out.extend_from_slice(section.kind.as_bytes())?;
    for option in section.options.as_slice() {
        out.push(b' ')?;
        out.extend_from_slice(option.name.as_bytes())?;
        out.push(b'=')?;
        show_value(out, &option.value)?;
    }
    out.push(b'\n')?;
    Ok(())
}

fn show_value(out: &mut Vec<u8>, value: &Value) -> anyhow::Result<()> {
    match value {
        Value::One(text) => out.extend_from_slice(text.as_bytes())?,
        Value::Many(items) => {
            for item in items.as_slice() {
                out.push(b'[')?;
                out.extend_from_slice(item.as_bytes())?;
                out.push(b']')?;
            }
        }
    }
    Ok(())
}
