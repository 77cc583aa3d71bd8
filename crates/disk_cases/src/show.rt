//! What steps give, as lines.
use snap_disk::Pending;
use std::alloc::Global;

/// Puts a line.
pub(crate) fn put_line(out: &mut Vec<u8>, line: &[u8]) -> anyhow::Result<()> {
    out.extend_from_slice(line)?;
    out.push(b'\n')?;
    Ok(())
}

/// Puts one of two words.
pub(crate) fn put_choice(
    out: &mut Vec<u8>,
    holds: bool,
    word: &str,
    other: &str,
) -> anyhow::Result<()> {
    put_line(
        out,
        if holds {
            word.as_bytes()
        } else {
            other.as_bytes()
        },
    )
}

/// Puts a number on a line.
pub(crate) fn put_number(alloc: Global, out: &mut Vec<u8>, number: u64) -> anyhow::Result<()> {
    let text = format!(in alloc; "{number}")?;
    put_line(out, text.as_bytes())
}

/// Tells why something is refused. Want of memory is no answer of a step.
pub(crate) fn put_error(
    alloc: Global,
    out: &mut Vec<u8>,
    number: u8,
    text: &str,
) -> anyhow::Result<()> {
    if number == 8 {
        return Err(anyhow::anyhow!("out of memory"));
    }
    let line = format!(in alloc; "error {number} {text}")?;
    put_line(out, line.as_bytes())
}

/// What waits, if something does.
pub(crate) fn put_pending(
    alloc: Global,
    out: &mut Vec<u8>,
    pending: Option<Pending>,
) -> anyhow::Result<()> {
    match pending {
        None => put_line(out, b"nothing waits"),
        Some(Pending { deadline, holder }) => {
            let line = format!(in alloc; "until {deadline} for {holder}")?;
            put_line(out, line.as_bytes())
        }
    }
}
