//! How a row is told: words on a line.
use net_addr::{Addr, Cidr, print_addr, print_cidr};
use net_rows::RowFault;
use net_status::fault_word;
use std::alloc::Global;
use uci_tree::Opt;

/// Puts a word behind a space.
pub(crate) fn put_word(out: &mut Vec<u8>, word: &[u8]) -> anyhow::Result<()> {
    out.push(b' ')?;
    out.extend_from_slice(word)?;
    Ok(())
}

/// Puts a word behind a space, where it holds.
pub(crate) fn put_if(out: &mut Vec<u8>, holds: bool, word: &[u8]) -> anyhow::Result<()> {
    if holds {
        put_word(out, word)?;
    }
    Ok(())
}

/// Puts a number behind a space.
pub(crate) fn put_number(alloc: Global, out: &mut Vec<u8>, number: u64) -> anyhow::Result<()> {
    let digits = format!(in alloc; "{number}")?;
    put_word(out, digits.as_bytes())
}

/// Puts a word and a number, each behind a space.
pub(crate) fn put_counted(
    alloc: Global,
    out: &mut Vec<u8>,
    word: &[u8],
    number: u64,
) -> anyhow::Result<()> {
    put_word(out, word)?;
    put_number(alloc, out, number)
}

/// Puts a prefix behind a space.
pub(crate) fn put_cidr(out: &mut Vec<u8>, cidr: Cidr) -> anyhow::Result<()> {
    let mut text = [0u8; 64];
    let length = print_cidr(cidr, &mut text);
    put_word(out, text.get(..length).unwrap_or(b""))
}

/// Puts an address behind ` via `.
pub(crate) fn put_via(out: &mut Vec<u8>, addr: Addr) -> anyhow::Result<()> {
    let mut text = [0u8; 64];
    let length = print_addr(addr, &mut text);
    put_word(out, b"via")?;
    put_word(out, text.get(..length).unwrap_or(b""))
}

/// Puts the names of options between braces.
pub(crate) fn put_options(out: &mut Vec<u8>, options: &[Opt]) -> anyhow::Result<()> {
    put_word(out, b"{")?;
    for option in options {
        put_word(out, option.name.as_bytes())?;
    }
    put_word(out, b"}")
}

/// Puts each fault behind ` !`, with what it is about, and ends the line.
pub(crate) fn put_faults(out: &mut Vec<u8>, faults: &[RowFault]) -> anyhow::Result<()> {
    for fault in faults {
        out.extend_from_slice(b" !")?;
        out.extend_from_slice(fault_word(fault.name))?;
        if let Some(argument) = &fault.argument {
            out.push(b'(')?;
            out.extend_from_slice(argument.as_bytes())?;
            out.push(b')')?;
        }
    }
    out.push(b'\n')?;
    Ok(())
}
