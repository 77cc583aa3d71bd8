use crate::files::{Named, disk_of, numbers_of, put};
use crate::open_snap::OpenSnap;
use crate::show::{put_choice, put_line, put_number};
use plane_disk::{Disk, MemDisk, are_disk_names, is_package_name};
use plane_io::{Failed, Text};
use snap_disk::NewFile;
use std::alloc::Global;

/// How many bytes a read may ask for.
const MOST_BYTES: usize = 1 << 20;

/// What a file may be, in images that are tried.
#[derive(Drop)]
pub(crate) struct MayBe {
    pub(crate) file: u32,
    pub(crate) contents: Vec<Text>,
}

/// The files of the next disk; the disk, or the snapshot on it; and what is to be written, and
/// tried.
#[derive(Drop)]
pub(crate) struct Disks {
    pub(crate) alloc: Global,
    pub(crate) files: Vec<Named>,
    pub(crate) disk: Option<MemDisk>,
    pub(crate) open: Option<OpenSnap>,
    pub(crate) new: Vec<NewFile>,
    pub(crate) may_be: Vec<MayBe>,
}

impl Disks {
    pub(crate) fn new(alloc: Global) -> Disks {
        Disks {
            alloc,
            files: Vec::new(alloc),
            disk: None,
            open: None,
            new: Vec::new(alloc),
            may_be: Vec::new(alloc),
        }
    }

    /// A step on a disk.
    pub(crate) fn step(
        &mut self,
        words: &[&str],
        input: &[u8],
        out: &mut Vec<u8>,
    ) -> anyhow::Result<()> {
        match words {
            ["file", name] => put(self.alloc, &mut self.files, name, input),
            ["start", words @ ..] => self.start(words),
            ["names", names @ ..] => {
                let names = texts_of(self.alloc, names)?;
                put_choice(out, are_disk_names(&names), "yes", "no")
            }
            ["package"] => put_choice(out, is_package_name(input), "yes", "no"),
            ["may-be", file] => self.note(file.parse()?, input),
            ["image", contents @ ..] => self.image(contents, out),
            ["crash", contents @ ..] => self.crash(contents),
            ["count" | "refused" | "name" | "size", ..] => self.look(words, out),
            words => call(self.alloc, self.closed()?, words, input, out),
        }
    }

    /// Begins a disk of the files.
    fn start(&mut self, words: &[&str]) -> anyhow::Result<()> {
        let (failing, passed) = match words {
            [] => (Vec::new(self.alloc), None),
            ["passes", passed] => (Vec::new(self.alloc), Some(passed.parse()?)),
            ["fails", numbers @ ..] => (numbers_of(self.alloc, numbers)?, None),
            ["passes", passed, "fails", numbers @ ..] => {
                (numbers_of(self.alloc, numbers)?, Some(passed.parse()?))
            }
            _ => return Err(anyhow::anyhow!("no such start")),
        };
        self.open = None;
        self.disk = Some(disk_of(self.alloc, &self.files, failing, passed)?);
        Ok(())
    }

    /// What a file may be.
    fn note(&mut self, file: u32, input: &[u8]) -> anyhow::Result<()> {
        let mut contents = Vec::new(self.alloc);
        for line in str::from_utf8(input)?.lines() {
            let text = match line.strip_prefix("x ") {
                Some(digits) => Text::from_vec(hex::decode(self.alloc, digits)?),
                None => Text::from_bytes(self.alloc, line.as_bytes())?,
            };
            contents.push(text)?;
        }
        self.may_be.push(MayBe { file, contents })?;
        Ok(())
    }

    /// The disk, on which no snapshot is open any more.
    pub(crate) fn closed(&mut self) -> anyhow::Result<&mut MemDisk> {
        if let Some(open) = self.open.take() {
            self.disk = Some(open.close());
        }
        match &mut self.disk {
            Some(disk) => Ok(disk),
            None => Err(anyhow::anyhow!("no disk")),
        }
    }

    /// The disk, also where a snapshot is open on it.
    pub(crate) fn seen(&self) -> anyhow::Result<&MemDisk> {
        match (&self.open, &self.disk) {
            (Some(open), _) => Ok(open.disk()),
            (None, Some(disk)) => Ok(disk),
            (None, None) => Err(anyhow::anyhow!("no disk")),
        }
    }

    /// Whether a crash may leave files of these contents.
    fn image(&self, contents: &[&str], out: &mut Vec<u8>) -> anyhow::Result<()> {
        let image = texts_of(self.alloc, contents)?;
        put_choice(
            out,
            self.seen()?.is_image(&image),
            "may be left",
            "is not left",
        )
    }

    /// A crash leaves files of these contents.
    fn crash(&mut self, contents: &[&str]) -> anyhow::Result<()> {
        let image = texts_of(self.alloc, contents)?;
        let disk = self.closed()?;
        if !disk.is_image(&image) {
            return Err(anyhow::anyhow!("no image"));
        }
        let left = disk.after_crash(&image)?;
        self.disk = Some(left);
        Ok(())
    }

    /// What a disk tells without a call.
    fn look(&self, words: &[&str], out: &mut Vec<u8>) -> anyhow::Result<()> {
        let disk = self.seen()?;
        match words {
            ["count"] => put_number(self.alloc, out, u64::from(disk.count())),
            ["refused"] => put_number(self.alloc, out, disk.refused()),
            ["name", file] => {
                let file = file.parse()?;
                if file >= disk.count() {
                    return Err(anyhow::anyhow!("no such file"));
                }
                put_line(out, disk.name(file))
            }
            ["size", file] => {
                let file = file.parse()?;
                if file >= disk.count() {
                    return Err(anyhow::anyhow!("no such file"));
                }
                put_number(self.alloc, out, disk.size(file))
            }
            _ => Err(anyhow::anyhow!("no such step")),
        }
    }
}

/// Texts of these words.
fn texts_of(alloc: Global, words: &[&str]) -> anyhow::Result<Vec<Text>> {
    let mut texts = Vec::new(alloc);
    for word in words {
        texts.push(Text::from_bytes(alloc, word.as_bytes())?)?;
    }
    Ok(texts)
}

/// A call of a disk.
fn call(
    alloc: Global,
    disk: &mut MemDisk,
    words: &[&str],
    input: &[u8],
    out: &mut Vec<u8>,
) -> anyhow::Result<()> {
    match words {
        ["write", file, at] => {
            let done = write(disk, file.parse()?, at.parse()?, input)?;
            tell(done, out)
        }
        ["cut", file, size] => {
            let done = cut(disk, file.parse()?, size.parse()?)?;
            tell(done, out)
        }
        ["sync"] => tell(disk.sync(), out),
        ["read", file, at, count] => {
            read(alloc, disk, file.parse()?, at.parse()?, count.parse()?, out)
        }
        _ => Err(anyhow::anyhow!("no such step")),
    }
}

fn tell(done: Result<(), Failed>, out: &mut Vec<u8>) -> anyhow::Result<()> {
    put_choice(out, done.is_ok(), "ok", "failed")
}

fn write(
    disk: &mut MemDisk,
    file: u32,
    at: u64,
    bytes: &[u8],
) -> anyhow::Result<Result<(), Failed>> {
    if file >= disk.count() {
        return Err(anyhow::anyhow!("no such file"));
    }
    if at > disk.size(file) {
        return Err(anyhow::anyhow!("past the end"));
    }
    Ok(disk.write_at(file, at, bytes))
}

fn cut(disk: &mut MemDisk, file: u32, size: u64) -> anyhow::Result<Result<(), Failed>> {
    if file >= disk.count() {
        return Err(anyhow::anyhow!("no such file"));
    }
    Ok(disk.cut(file, size))
}

fn read(
    alloc: Global,
    disk: &mut MemDisk,
    file: u32,
    at: u64,
    count: usize,
    out: &mut Vec<u8>,
) -> anyhow::Result<()> {
    if file >= disk.count() || count > MOST_BYTES {
        return Err(anyhow::anyhow!("no such read"));
    }
    let mut bytes = vec![in alloc; 0u8; count]?;
    match disk.read(file, at, &mut bytes) {
        Ok(count) => {
            bytes.truncate(count);
            put_line(out, &bytes)
        }
        Err(Failed) => put_line(out, b"failed"),
    }
}
