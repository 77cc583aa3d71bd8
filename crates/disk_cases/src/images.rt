//! What a crash may leave of a disk, opened.
use crate::disks::{Disks, MayBe};
use crate::open_snap::{OpenSnap, Shut};
use crate::show::put_pending;
use plane_disk::{Disk, MemDisk};
use plane_io::Text;
use std::alloc::Global;

/// A line for each state that images of the disk open as at this moment, in order.
pub(crate) fn show_images(disks: &Disks, now: u64, out: &mut Vec<u8>) -> anyhow::Result<()> {
    let alloc = disks.alloc;
    let disk = disks.seen()?;
    let mut states = Vec::new(alloc);
    for image in lists_of(alloc, disk, &disks.may_be)? {
        if disk.is_image(&image) {
            let left = disk.after_crash(&image)?;
            note(&mut states, state_of(alloc, left, now)?)?;
        }
    }
    states.sort()?;
    for state in &states {
        out.extend_from_slice(state.as_bytes())?;
    }
    Ok(())
}

fn note(states: &mut Vec<Text>, state: Text) -> anyhow::Result<()> {
    if !states
        .iter()
        .any(|other| other.as_bytes() == state.as_bytes())
    {
        states.push(state)?;
    }
    Ok(())
}

/// What a disk opens as: its packages, and what waits.
fn state_of(alloc: Global, disk: MemDisk, now: u64) -> anyhow::Result<Text> {
    let open = match OpenSnap::open(alloc, disk, now) {
        Ok(open) => open,
        Err(Shut { error, .. }) => {
            let text = format!(in alloc; "error {} {error}\n", error.number())?;
            return Ok(Text::from_vec(text.into_bytes()));
        }
    };
    let mut state = Vec::new(alloc);
    for file in 2..open.disk().count() {
        if let Some(bytes) = open.file(file) {
            state.extend_from_slice(bytes)?;
            state.extend_from_slice(b", ")?;
        }
    }
    put_pending(alloc, &mut state, open.pending())?;
    Ok(Text::from_vec(state))
}

/// All lists of what the files may be.
fn lists_of(alloc: Global, disk: &MemDisk, may_be: &[MayBe]) -> anyhow::Result<Vec<Vec<Text>>> {
    let mut lists = Vec::new(alloc);
    lists.push(Vec::new(alloc))?;
    for file in 0..disk.count() {
        let Some(known) = may_be.iter().find(|known| known.file == file) else {
            return Err(anyhow::anyhow!("a file that may be anything"));
        };
        lists = longer(alloc, &lists, &known.contents)?;
    }
    Ok(lists)
}

/// Each of the lists with each of the contents behind it.
fn longer(alloc: Global, lists: &[Vec<Text>], contents: &[Text]) -> anyhow::Result<Vec<Vec<Text>>> {
    let mut all = Vec::new(alloc);
    for list in lists {
        for last in contents {
            let mut next = Vec::new(alloc);
            for text in list {
                next.push(text.copy()?)?;
            }
            next.push(last.copy()?)?;
            all.push(next)?;
        }
    }
    Ok(all)
}
