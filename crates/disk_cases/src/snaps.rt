//! Steps on a snapshot.
use crate::disks::Disks;
use crate::images::show_images;
use crate::open_snap::{OpenSnap, Shut};
use crate::show::{put_choice, put_error, put_line, put_pending};
use plane_io::Text;
use snap_disk::{NewFile, Pending, SnapError};
use std::alloc::Global;
use std::mem;

/// A step on the snapshot of the disk.
pub(crate) fn step(
    disks: &mut Disks,
    words: &[&str],
    input: &[u8],
    out: &mut Vec<u8>,
) -> anyhow::Result<()> {
    match words {
        ["open", moment] => open(disks, moment.parse()?, out),
        ["new", file] => {
            let file = file.parse()?;
            let bytes = Text::from_bytes(disks.alloc, input)?;
            disks.new.push(NewFile { file, bytes })?;
            Ok(())
        }
        ["apply", deadline, holder] => {
            let deadline = deadline.parse()?;
            let holder = holder.parse()?;
            begin(disks, Some(Pending { deadline, holder }), out)
        }
        ["commit"] => begin(disks, None, out),
        ["images", moment] => show_images(disks, moment.parse()?, out),
        words => match &mut disks.open {
            Some(open) => on_open(disks.alloc, open, words, out),
            None => Err(anyhow::anyhow!("no such step, or no snapshot is open")),
        },
    }
}

/// Opens the disk.
fn open(disks: &mut Disks, now: u64, out: &mut Vec<u8>) -> anyhow::Result<()> {
    let _disk = disks.closed()?;
    let Some(disk) = disks.disk.take() else {
        return Err(anyhow::anyhow!("no disk"));
    };
    match OpenSnap::open(disks.alloc, disk, now) {
        Ok(open) => {
            disks.open = Some(open);
            put_line(out, b"ok")
        }
        Err(Shut { disk, error }) => {
            disks.disk = Some(disk);
            refuse(disks.alloc, error, out)
        }
    }
}

/// Writes what is new.
fn begin(disks: &mut Disks, wait: Option<Pending>, out: &mut Vec<u8>) -> anyhow::Result<()> {
    let new = mem::replace(&mut disks.new, Vec::new(disks.alloc));
    let Some(open) = &mut disks.open else {
        return Err(anyhow::anyhow!("no snapshot is open"));
    };
    match open.begin(disks.alloc, new, wait) {
        Some(done) => tell(disks.alloc, done, out),
        None => Err(anyhow::anyhow!("no files of packages")),
    }
}

fn on_open(
    alloc: Global,
    open: &mut OpenSnap,
    words: &[&str],
    out: &mut Vec<u8>,
) -> anyhow::Result<()> {
    match words {
        ["confirm"] => tell(alloc, open.confirm(), out),
        ["rollback"] => tell(alloc, open.rollback(), out),
        ["tick", moment] => match open.tick(moment.parse()?) {
            Ok(done) => put_choice(out, done, "undone", "nothing is due"),
            Err(error) => refuse(alloc, error, out),
        },
        ["pending"] => put_pending(alloc, out, open.pending()),
        ["file", file] => match open.file(file.parse()?) {
            Some(bytes) => put_line(out, bytes),
            None => Err(anyhow::anyhow!("no file of a package")),
        },
        _ => Err(anyhow::anyhow!("no such step")),
    }
}

fn tell(alloc: Global, done: Result<(), SnapError>, out: &mut Vec<u8>) -> anyhow::Result<()> {
    match done {
        Ok(()) => put_line(out, b"ok"),
        Err(error) => refuse(alloc, error, out),
    }
}

fn refuse(alloc: Global, error: SnapError, out: &mut Vec<u8>) -> anyhow::Result<()> {
    let text = error.to_string(alloc)?;
    put_error(alloc, out, error.number(), text.as_str())
}
