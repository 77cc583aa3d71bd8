//! `store TIMES`: reads a package from the standard input into a store in memory, of which the
//! command line has staged a change for each section, looks at what is seen then so many times, and
//! gives how many sections that has and how many changes are staged.
ghost use Rattle.std.specs.Prelude.{◌<◌, ◌-◌, ◌^◌, length};

use plane_disk::{MemDisk, MemFile, are_disk_names, file_names};
use plane_io::{Memory, Text, read_to_end};
use plane_real::StdSource;
use std::alloc::Global;
use uci_store::{Store, StoreError, have_same_packages};
use uci_tree::read_package;

/// How many bytes a text may have.
const LIMIT: u64 = 1 << 20;

/// The command line.
const HOLDER: u128 = 0;

/// A file of a disk.
fn file_of(alloc: Global, name: &[u8], bytes: &[u8]) -> Result<MemFile, Memory> {
    Ok(MemFile {
        name: Text::from_bytes(alloc, name)?,
        bytes: Text::from_bytes(alloc, bytes)?,
    })
}

/// A disk with these gates and this file of the package.
fn disk_of(alloc: Global, gates: &[u8], text: &[u8]) -> Result<Option<MemDisk>, Memory> {
    let mut files = Vec::new(alloc);
    files.push(file_of(alloc, b".plane-gates", gates)?)?;
    files.push(file_of(alloc, b".plane-snapshot", b"")?)?;
    files.push(file_of(alloc, b"network", text)?)?;
    if !are_disk_names(&file_names(alloc, &files)?) {
        return Ok(None);
    }
    Ok(Some(MemDisk::new(alloc, files, Vec::new(alloc), None)?))
}

/// A change of an option for each section of the package, a line each.
fn changes_of(alloc: Global, text: &[u8]) -> Result<Vec<u8>, StoreError>
    requires { length text.now < 2 ^ 32 - 1 }
{
    let tree = read_package(alloc, b"network", text)?;
    let mut lines = Vec::new(alloc);
    for section in tree.sections.as_slice() {
        lines.extend_from_slice(b"network.")?;
        lines.extend_from_slice(section.name.as_bytes())?;
        lines.extend_from_slice(b".mtu='1500'\n")?;
    }
    Ok(lines)
}

/// How many sections are seen behind all that, and how many changes are staged.
fn view_often(alloc: Global, text: &[u8], times: u32) -> Result<(usize, usize), StoreError>
    requires { length text.now < 2 ^ 32 - 1 }
{
    let changes = changes_of(alloc, text)?;
    let Some(mut files) = disk_of(alloc, b"\0\0", text)? else {
        return Ok((0, 0));
    };
    let Some(mut staged) = disk_of(alloc, b"", &changes)? else {
        return Ok((0, 0));
    };
    if !have_same_packages(&files, &staged) {
        return Ok((0, 0));
    }
    let store = Store::open(alloc, &mut files, &mut staged, 0)?;
    let mut sections = 0;
    for _ in 0..times {
        let view = store.view(alloc, HOLDER, b"network")?;
        sections = view.sections.as_slice().len();
    }
    let changes = store.changes(alloc, HOLDER, b"network")?;
    Ok((sections, changes.as_slice().len()))
}

/// Carries these words out.
pub(crate) fn run(rt: &HostRuntime, words: &[&str]) -> anyhow::Result<Option<String>> {
    let alloc = rt.alloc();
    let [times] = words else {
        return Ok(None);
    };
    let text = read_to_end(alloc, &mut StdSource::new(rt.stdin()), LIMIT)?;
    let (sections, changes) = view_often(alloc, text.as_slice(), times.parse()?)?;
    Ok(Some(format!(in alloc; "{sections} {changes}")?))
}
