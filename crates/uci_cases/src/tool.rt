//! Runs of `uci`.
use crate::folder::Folder;
use crate::show::put_error;
use plane_disk::Disk;
use plane_io::{MemSink, MemSource, Text};
use std::alloc::Global;
use uci_store::{Store, StoreError, have_same_packages};
use uci_tool::{UciEnd, uci};

/// Runs `uci` with these words and this input over the folder.
pub(crate) fn run(
    alloc: Global,
    folder: &mut Folder,
    words: &[&str],
    input: &[u8],
    out: &mut Vec<u8>,
) -> anyhow::Result<()> {
    let failing = folder.take_failing();
    let words = texts_of(alloc, words)?;
    let mut files = folder.disk_of_files(failing.files)?;
    let mut staged = folder.disk_of_staged(failing.staged)?;
    let mut input = MemSource::new(Vec::from_slice(alloc, input)?, failing.input);
    let mut output = MemSink::new(alloc, failing.output);
    let mut told = MemSink::new(alloc, failing.told);
    let end = carry_out(
        alloc,
        &words,
        &mut files,
        &mut staged,
        &mut input,
        &mut output,
        &mut told,
    )?;
    folder.keep(&mut files, &mut staged)?;
    out.extend_from_slice(output.bytes())?;
    match end {
        Ok(end) => tell(alloc, told.bytes(), end, out),
        Err(error) => {
            let text = error.to_string(alloc)?;
            put_error(alloc, out, error.number(), text.as_str())
        }
    }
}

fn texts_of(alloc: Global, words: &[&str]) -> anyhow::Result<Vec<Text>> {
    let mut texts = Vec::new(alloc);
    for word in words {
        texts.push(Text::from_bytes(alloc, word.as_bytes())?)?;
    }
    Ok(texts)
}

/// Opens the folder and carries the words out, or tells why it does not open.
fn carry_out<D: Disk, T: Disk>(
    alloc: Global,
    words: &[Text],
    files: &mut D,
    staged: &mut T,
    input: &mut MemSource,
    output: &mut MemSink,
    told: &mut MemSink,
) -> anyhow::Result<Result<UciEnd, StoreError>> {
    if !have_same_packages(files, staged) {
        return Err(anyhow::anyhow!("other packages"));
    }
    let mut store = match Store::open(alloc, files, staged, 0) {
        Ok(store) => store,
        Err(error) => return Ok(Err(error)),
    };
    Ok(Ok(uci(alloc, words, &mut store, files, staged, input, output, told)))
}

/// Puts what was told, and a status that is not 0.
fn tell(alloc: Global, told: &[u8], end: UciEnd, out: &mut Vec<u8>) -> anyhow::Result<()> {
    for line in told.split_inclusive(|byte| *byte == b'\n') {
        out.extend_from_slice(b"told: ")?;
        out.extend_from_slice(line)?;
    }
    let line = match (end.status, end.refusal) {
        (0, _) => return Ok(()),
        (status, 0) => format!(in alloc; "status {status}\n")?,
        (status, refusal) => format!(in alloc; "status {status}, refusal {refusal}\n")?,
    };
    out.extend_from_slice(line.as_bytes())?;
    Ok(())
}
