use bus_words::{message_of, put_frame};
use std::alloc::Global;
use std::fmt::Write;
use ubus_frames::{Feeder, FrameError, frame_fits, frame_size, write_frame};

/// Puts the bytes that are written of a message.
pub(crate) fn frame_bytes(
    alloc: Global,
    kind: &str,
    seq: &str,
    fields: &[&str],
    input: &[u8],
    out: &mut Vec<u8>,
) -> anyhow::Result<()> {
    let frame = message_of(alloc, kind, seq, fields, input)?;
    if frame_fits(&frame) {
        write_frame(out, &frame)?;
    } else {
        out.extend_from_slice(b"no spelling\n")?;
    }
    Ok(())
}

/// Puts how many bytes the frame in front has.
pub(crate) fn size_of_frame(alloc: Global, input: &[u8], out: &mut Vec<u8>) -> anyhow::Result<()> {
    let mut told = String::new(alloc);
    match frame_size(input) {
        Ok(Some(size)) => writeln!(told, "size {size}")?,
        Ok(None) => writeln!(told, "unfinished")?,
        Err(error) => writeln!(told, "error {} {error}", error.number())?,
    }
    out.extend_from_slice(told.as_bytes())?;
    Ok(())
}

/// Feeds a piece, and puts the fault that it brings.
pub(crate) fn feed(feeder: &mut Feeder, piece: &[u8], out: &mut Vec<u8>) -> anyhow::Result<()> {
    match feeder.feed(piece) {
        Ok(()) => Ok(()),
        Err(error) => put_fault(error, out),
    }
}

fn put_fault(error: FrameError, out: &mut Vec<u8>) -> anyhow::Result<()> {
    let told = format!(in *out.allocator(); "error {} {error}\n", error.number())?;
    out.extend_from_slice(told.as_bytes())?;
    Ok(())
}

/// Takes the next frame out.
pub(crate) fn take(alloc: Global, feeder: &mut Feeder, out: &mut Vec<u8>) -> anyhow::Result<()> {
    match feeder.take() {
        Some(frame) => {
            put_frame(alloc, out, &frame)?;
            out.push(b'\n')?;
        }
        None => out.extend_from_slice(b"none\n")?,
    }
    Ok(())
}

/// Takes all frames out.
pub(crate) fn take_all(
    alloc: Global,
    feeder: &mut Feeder,
    out: &mut Vec<u8>,
) -> anyhow::Result<()> {
    for _ in 0..u64::MAX {
        let Some(frame) = feeder.take() else {
            return Ok(());
        };
        put_frame(alloc, out, &frame)?;
        out.push(b'\n')?;
    }
    Ok(())
}

/// Feeds byte for byte, and puts what each byte brings.
pub(crate) fn bytes(alloc: Global, input: &[u8], out: &mut Vec<u8>) -> anyhow::Result<()> {
    let mut feeder = Feeder::new(alloc);
    let mut count = 0usize;
    for byte in input {
        count = count.saturating_add(1);
        let mut told = Vec::new(alloc);
        feed(&mut feeder, &[*byte], &mut told)?;
        take_all(alloc, &mut feeder, &mut told)?;
        for line in told.split_inclusive(|byte| *byte == b'\n') {
            let head = format!(in alloc; "{count}: ")?;
            out.extend_from_slice(head.as_bytes())?;
            out.extend_from_slice(line)?;
        }
    }
    Ok(())
}

/// What comes of these pieces, one after the other.
fn comes(alloc: Global, front: &[u8], back: &[u8]) -> anyhow::Result<(Vec<u8>, Vec<u8>)> {
    let mut feeder = Feeder::new(alloc);
    let mut faults = Vec::new(alloc);
    let mut frames = Vec::new(alloc);
    feed(&mut feeder, front, &mut faults)?;
    take_all(alloc, &mut feeder, &mut frames)?;
    if faults.is_empty() {
        feed(&mut feeder, back, &mut faults)?;
        take_all(alloc, &mut feeder, &mut frames)?;
    }
    Ok((frames, faults))
}

/// Feeds all at once, and then in every two pieces, and puts what comes and whether it is the same.
pub(crate) fn pieces(alloc: Global, input: &[u8], out: &mut Vec<u8>) -> anyhow::Result<()> {
    let (frames, faults) = comes(alloc, input, b"")?;
    out.extend_from_slice(&frames)?;
    out.extend_from_slice(&faults)?;
    for cut in 0..=input.len() {
        let Some((front, back)) = input.split_at_checked(cut) else {
            break;
        };
        let (cut_frames, cut_faults) = comes(alloc, front, back)?;
        if cut_frames.as_slice() != frames.as_slice()
            || cut_faults.as_slice() != faults.as_slice()
        {
            let told = format!(in alloc; "cut at {cut} differs\n")?;
            out.extend_from_slice(told.as_bytes())?;
            return Ok(());
        }
    }
    let told = format!(in alloc; "{} cuts\n", input.len().saturating_add(1))?;
    out.extend_from_slice(told.as_bytes())?;
    Ok(())
}
