//! Texts that are read.
use crate::show::{put_error, put_line, show_command, show_line, show_package};
use std::alloc::Global;
use uci_text::{TextError, quote_into, read_commands, read_lines};
use uci_tree::{Package, TreeError, read_package};

/// How many bytes a text may have.
const LONGEST: usize = 1 << 20;

/// Reads a text as lines, as commands or as a value that is quoted, and shows what it is.
pub(crate) fn read_text(
    alloc: Global,
    kind: &str,
    text: &[u8],
    out: &mut Vec<u8>,
) -> anyhow::Result<()> {
    match kind {
        "lines" => show_lines(alloc, text, out),
        "commands" => show_commands(alloc, text, out),
        _ => quote(alloc, text, out),
    }
}

fn quote(alloc: Global, value: &[u8], out: &mut Vec<u8>) -> anyhow::Result<()> {
    let mut quoted = Vec::new(alloc);
    quote_into(&mut quoted, value)?;
    put_line(out, &quoted)
}

fn show_lines(alloc: Global, text: &[u8], out: &mut Vec<u8>) -> anyhow::Result<()> {
    if text.len() > LONGEST {
        return Err(anyhow::anyhow!("a long text"));
    }
    match read_lines(alloc, text) {
        Ok(lines) => {
            for line in lines.as_slice() {
                show_line(alloc, out, line)?;
            }
            Ok(())
        }
        Err(error) => text_error(alloc, error, out),
    }
}

fn show_commands(alloc: Global, text: &[u8], out: &mut Vec<u8>) -> anyhow::Result<()> {
    if text.len() > LONGEST {
        return Err(anyhow::anyhow!("a long text"));
    }
    match read_commands(alloc, text) {
        Ok(commands) => {
            for command in commands.as_slice() {
                show_command(alloc, out, command)?;
            }
            Ok(())
        }
        Err(error) => text_error(alloc, error, out),
    }
}

fn text_error(alloc: Global, error: TextError, out: &mut Vec<u8>) -> anyhow::Result<()> {
    let text = error.to_string(alloc)?;
    put_error(alloc, out, error.number(), text.as_str())
}

/// Reads a text as the package of this name, and shows it or why it is none.
pub(crate) fn take_package(
    alloc: Global,
    name: &str,
    text: &[u8],
    out: &mut Vec<u8>,
) -> anyhow::Result<Option<Package>> {
    if text.len() > LONGEST {
        return Err(anyhow::anyhow!("a long text"));
    }
    match read_package(alloc, name.as_bytes(), text) {
        Ok(package) => {
            show_package(out, &package)?;
            Ok(Some(package))
        }
        Err(error) => {
            tree_error(alloc, error, out)?;
            Ok(None)
        }
    }
}

fn tree_error(alloc: Global, error: TreeError, out: &mut Vec<u8>) -> anyhow::Result<()> {
    let text = error.to_string(alloc)?;
    put_error(alloc, out, error.number(), text.as_str())
}
