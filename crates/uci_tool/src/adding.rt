//! `add` and `revert`.
ghost use Rattle.std.specs.Prelude.{◌≡◌, IfOk};
ghost use Rattle.uci_store.specs.Store.{IsStore};
ghost use Rattle.uci_cli.specs.Get.{line_of};
ghost use Rattle.uci_tool.specs.Answers.{Answers, Changes, Effects, Stages, IsReady};
ghost use Rattle.uci_tool.specs.Folder.{folder_of};
ghost use Rattle.uci_tool.specs.Staging as spec;

use crate::Stop;
use crate::paths::read_word;
use crate::seeing::{COMMAND_LINE, see};
use crate::staging::{name_in, stage};
use crate::stop::stop_of;
use plane_disk::Disk;
use plane_io::{Memory, Text};
use std::alloc::Global;
use uci_delta::{Change, Delta};
use uci_store::Store;
use uci_tree::{Path, SectionRef, anonymous_name};

/// `add P TYPE`: stages a new section, and gives the line of its name.
pub fn add<T: Disk>(
    alloc: Global,
    store: &mut Store,
    staged: &mut T,
    package: &Text,
    kind: &Text,
) -> Result<Text, Stop>
    requires { IsReady store.old (T.view staged.old) }
    ensures effects { Effects result (folder_of store.old) (folder_of store.new)
        (spec.add_done (folder_of store.old) «package».now kind.now) }
    ensures stages { Stages result store.old store.new (T.view staged.old) (T.view staged.new) }
{
    match see(alloc, store, package.as_bytes()) {
        Ok(tree) => add_behind(alloc, store, staged, tree.made, package, kind),
        Err(stop) => Err(stop),
    }
}

/// Stages a new section of a package to which so many were added.
fn add_behind<T: Disk>(
    alloc: Global,
    store: &mut Store,
    staged: &mut T,
    made: u64,
    package: &Text,
    kind: &Text,
) -> Result<Text, Stop>
    requires { IsReady store.old (T.view staged.old) }
    ensures effects { Effects result (folder_of store.old) (folder_of store.new)
        (spec.add_behind (folder_of store.old) made «package».now kind.now) }
    ensures stages { Stages result store.old store.new (T.view staged.old) (T.view staged.new) }
{
    let (delta, line) = match addition(alloc, made, package, kind) {
        Ok(addition) => addition,
        Err(_) => return Err(Stop::Memory),
    };
    match stage(alloc, store, staged, delta) {
        Ok(()) => Ok(line),
        Err(stop) => Err(stop),
    }
}

/// The change that adds a section, and the line of its name.
fn addition(alloc: Global, made: u64, package: &Text, kind: &Text) -> Result<(Delta, Text), Memory>
    ensures delta { IfOk result (λ addition. addition.0
        ≡ spec.added «package».now (spec.new_name made kind.now) kind.now) }
    ensures line { IfOk result (λ addition. addition.1 ≡ line_of (spec.new_name made kind.now)) }
{
    let section = anonymous_name(alloc, made.saturating_add(1), kind.as_bytes())?;
    let mut line = Vec::from_slice(alloc, section.as_bytes())?;
    line.push(b'\n')?;
    let delta = Delta {
        package: package.copy()?,
        section,
        option: None,
        change: Change::Add(kind.copy()?),
    };
    Ok((delta, Text::from_vec(line)))
}

/// `revert PATH`.
pub fn revert_word<T: Disk>(
    alloc: Global,
    store: &mut Store,
    staged: &mut T,
    word: &[u8],
) -> Result<(), Stop>
    requires { IsReady store.old (T.view staged.old) }
    ensures changes { Changes result (folder_of store.old) (folder_of store.new)
        (spec.revert_word (folder_of store.old) word.now) }
    ensures stages { Stages result store.old store.new (T.view staged.old) (T.view staged.new) }
{
    match read_word(alloc, word) {
        Ok(path) => revert_named(alloc, store, staged, path),
        Err(stop) => Err(stop),
    }
}

fn revert_named<T: Disk>(
    alloc: Global,
    store: &mut Store,
    staged: &mut T,
    path: Path,
) -> Result<(), Stop>
    requires { IsReady store.old (T.view staged.old) }
    ensures changes { Changes result (folder_of store.old) (folder_of store.new)
        (spec.revert_named (folder_of store.old) path) }
    ensures stages { Stages result store.old store.new (T.view staged.old) (T.view staged.new) }
{
    match by_name(alloc, store, path) {
        Ok(path) => revert(alloc, store, staged, &path),
        Err(stop) => Err(stop),
    }
}

/// The path, in which a section has its name.
fn by_name(alloc: Global, store: &Store, path: Path) -> Result<Path, Stop>
    requires { IsStore store.now }
    ensures { Answers result (spec.by_name (folder_of store.now) path path.section) }
{
    let Path {
        package,
        section,
        option,
    } = path;
    let Some(reference) = section else {
        return Ok(Path {
            package,
            section: None,
            option,
        });
    };
    match name_in(alloc, store, package.as_bytes(), reference) {
        Ok(name) => Ok(Path {
            package,
            section: Some(SectionRef::Name(name)),
            option,
        }),
        Err(stop) => Err(stop),
    }
}

fn revert<T: Disk>(
    alloc: Global,
    store: &mut Store,
    staged: &mut T,
    path: &Path,
) -> Result<(), Stop>
    requires { IsReady store.old (T.view staged.old) }
    ensures changes { Changes result (folder_of store.old) (folder_of store.new)
        (spec.revert_path (folder_of store.old) path.now) }
    ensures stages { Stages result store.old store.new (T.view staged.old) (T.view staged.new) }
{
    match store.revert(alloc, staged, COMMAND_LINE, path) {
        Ok(()) => Ok(()),
        Err(error) => Err(stop_of(error)),
    }
}
