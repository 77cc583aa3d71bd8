use crate::files::{Named, all_of, disk_of, number_of, put, put_others};
use crate::open_store::OpenStore;
use crate::show::{put_choice, put_error, put_line, put_pending};
use plane_disk::MemDisk;
use std::alloc::Global;
use uci_delta::{print_change, read_deltas};
use uci_store::StoreError;
use uci_tree::{Package, print_package, read_path};

/// The files of staged changes for the next store, how many calls their disk passes, the store, and
/// its disks where it is closed.
#[derive(Drop)]
pub(crate) struct Stores {
    alloc: Global,
    staged: Vec<Named>,
    passed: Option<u64>,
    open: Option<OpenStore>,
    files_disk: Option<MemDisk>,
    staged_disk: Option<MemDisk>,
}

impl Stores {
    pub(crate) fn new(alloc: Global) -> Stores {
        Stores {
            alloc,
            staged: Vec::new(alloc),
            passed: None,
            open: None,
            files_disk: None,
            staged_disk: None,
        }
    }

    /// A step on a store, of which these are the files.
    pub(crate) fn step(
        &mut self,
        files: &[Named],
        disk: Option<MemDisk>,
        words: &[&str],
        input: &[u8],
        out: &mut Vec<u8>,
    ) -> anyhow::Result<()> {
        match words {
            ["staged", name] => put(self.alloc, &mut self.staged, name, input),
            ["staged-passes", passed] => {
                self.passed = Some(passed.parse()?);
                Ok(())
            }
            ["open", moment] => self.open(files, disk, moment.parse()?, out),
            ["read", name] => {
                self.close();
                give(self.alloc, &mut self.files_disk, name, out)
            }
            ["read-staged", name] => {
                self.close();
                give(self.alloc, &mut self.staged_disk, name, out)
            }
            words => match &mut self.open {
                Some(open) => on_open(self.alloc, open, words, out),
                None => Err(anyhow::anyhow!("no such step, or no store is open")),
            },
        }
    }

    /// Opens a store on the disk of files, or on a new one of them.
    fn open(
        &mut self,
        files: &[Named],
        disk: Option<MemDisk>,
        now: u64,
        out: &mut Vec<u8>,
    ) -> anyhow::Result<()> {
        put_others(self.alloc, &mut self.staged, files)?;
        let staged = disk_of(self.alloc, &self.staged, Vec::new(self.alloc), self.passed)?;
        let disk = match disk {
            Some(disk) => disk,
            None => disk_of(self.alloc, files, Vec::new(self.alloc), None)?,
        };
        match OpenStore::open(self.alloc, disk, staged, now) {
            None => put_line(out, b"other packages"),
            Some(Err(error)) => refuse(self.alloc, error, out),
            Some(Ok(open)) => {
                self.open = Some(open);
                put_line(out, b"ok")
            }
        }
    }

    /// Closes the store, and keeps its disks.
    fn close(&mut self) {
        if let Some(open) = self.open.take() {
            let (files, staged) = open.close();
            self.files_disk = Some(files);
            self.staged_disk = Some(staged);
        }
    }
}

/// The bytes of a file of a disk.
fn give(
    alloc: Global,
    disk: &mut Option<MemDisk>,
    name: &str,
    out: &mut Vec<u8>,
) -> anyhow::Result<()> {
    let Some(disk) = disk else {
        return Err(anyhow::anyhow!("no store was open"));
    };
    let number = number_of(disk, name)?;
    let bytes = all_of(alloc, disk, number)?;
    out.extend_from_slice(&bytes)?;
    Ok(())
}

fn on_open(
    alloc: Global,
    open: &mut OpenStore,
    words: &[&str],
    out: &mut Vec<u8>,
) -> anyhow::Result<()> {
    match words {
        ["stage", holder, line] => stage(alloc, open, holder.parse()?, line, out),
        ["revert", holder, path] => revert(alloc, open, holder.parse()?, path, out),
        ["commit", holder, package] => {
            let done = open.commit(alloc, holder.parse()?, package.as_bytes());
            tell(alloc, done, out)
        }
        ["replace", holder, package] => replace(alloc, open, holder.parse()?, package, out),
        ["apply", holder, deadline] => {
            let deadline = match *deadline {
                "never" => None,
                other => Some(other.parse()?),
            };
            let done = open.apply(alloc, holder.parse()?, deadline);
            tell(alloc, done, out)
        }
        ["confirm", holder] => {
            let done = open.confirm(holder.parse()?);
            tell(alloc, done, out)
        }
        ["rollback", holder] => {
            let done = open.rollback(holder.parse()?);
            tell(alloc, done, out)
        }
        ["tick", moment] => match open.tick(moment.parse()?) {
            Ok(done) => put_choice(out, done, "undone", "nothing is due"),
            Err(error) => refuse(alloc, error, out),
        },
        words => look(alloc, open, words, out),
    }
}

fn look(alloc: Global, open: &OpenStore, words: &[&str], out: &mut Vec<u8>) -> anyhow::Result<()> {
    match words {
        ["changes", holder, package] => {
            show_changes(alloc, open, holder.parse()?, package.as_bytes(), out)
        }
        ["view", holder, package] => {
            let view = open.view(alloc, holder.parse()?, package.as_bytes());
            print(alloc, view, out)
        }
        ["committed", package] => {
            let tree = open.committed(alloc, package.as_bytes());
            print(alloc, tree, out)
        }
        ["pending"] => put_pending(alloc, out, open.pending()),
        ["packages"] => {
            for name in open.packages() {
                put_line(out, name.as_bytes())?;
            }
            Ok(())
        }
        _ => Err(anyhow::anyhow!("no such step")),
    }
}

/// Stages the change of a line of a delta file.
fn stage(
    alloc: Global,
    open: &mut OpenStore,
    holder: u128,
    line: &str,
    out: &mut Vec<u8>,
) -> anyhow::Result<()> {
    let Some((package, _)) = line
        .trim_start_matches(['+', '-', '@', '^', '|', '~'])
        .split_once('.')
    else {
        return Err(anyhow::anyhow!("no line of a change"));
    };
    let mut deltas = read_deltas(alloc, package.as_bytes(), line.as_bytes())?.into_vec();
    let Some(delta) = deltas.pop() else {
        return Err(anyhow::anyhow!("no line of a change"));
    };
    let done = open.stage(alloc, holder, delta);
    tell(alloc, done, out)
}

/// Takes back what lies under a path.
fn revert(
    alloc: Global,
    open: &mut OpenStore,
    holder: u128,
    path: &str,
    out: &mut Vec<u8>,
) -> anyhow::Result<()> {
    let Some(path) = read_path(alloc, path.as_bytes())? else {
        return Err(anyhow::anyhow!("no path"));
    };
    let done = open.revert(alloc, holder, &path);
    tell(alloc, done, out)
}

/// Puts a package in its own place.
fn replace(
    alloc: Global,
    open: &mut OpenStore,
    holder: u128,
    package: &str,
    out: &mut Vec<u8>,
) -> anyhow::Result<()> {
    match open.committed(alloc, package.as_bytes()) {
        Ok(tree) => {
            let done = open.replace(alloc, holder, &tree);
            tell(alloc, done, out)
        }
        Err(error) => refuse(alloc, error, out),
    }
}

/// What a holder has staged of a package.
fn show_changes(
    alloc: Global,
    open: &OpenStore,
    holder: u128,
    package: &[u8],
    out: &mut Vec<u8>,
) -> anyhow::Result<()> {
    let deltas = match open.changes(alloc, holder, package) {
        Ok(deltas) => deltas,
        Err(error) => return refuse(alloc, error, out),
    };
    for delta in deltas.as_slice() {
        if !delta.has_shape() {
            return Err(anyhow::anyhow!("a change of no shape"));
        }
        print_change(out, delta)?;
        out.push(b'\n')?;
    }
    Ok(())
}

/// The text of a package, with the names of all sections.
fn print(
    alloc: Global,
    tree: Result<Package, StoreError>,
    out: &mut Vec<u8>,
) -> anyhow::Result<()> {
    match tree {
        Ok(tree) => {
            let text = print_package(alloc, &tree, false, true)?;
            out.extend_from_slice(&text)?;
            Ok(())
        }
        Err(error) => refuse(alloc, error, out),
    }
}

fn tell(alloc: Global, done: Result<(), StoreError>, out: &mut Vec<u8>) -> anyhow::Result<()> {
    match done {
        Ok(()) => put_line(out, b"ok"),
        Err(error) => refuse(alloc, error, out),
    }
}

fn refuse(alloc: Global, error: StoreError, out: &mut Vec<u8>) -> anyhow::Result<()> {
    let text = error.to_string(alloc)?;
    put_error(alloc, out, error.number(), text.as_str())
}
