//! Commands that stage a change.
ghost use Rattle.std.specs.Prelude.{◌≡◌, IfOk};
ghost use Rattle.std.specs.Option.{ok_or};
ghost use Rattle.uci_store.specs.Store.{IsStore};
ghost use Rattle.uci_tool.specs.Answers.{Answers, Changes, Stages, IsReady};
ghost use Rattle.uci_tool.specs.Folder.{folder_of};
ghost use Rattle.uci_tool.specs.Staging as spec;

use crate::Stop;
use crate::paths::{cut_word, read_word};
use crate::seeing::{COMMAND_LINE, see};
use crate::stop::stop_of;
use plane_disk::Disk;
use plane_io::{Memory, Text};
use std::alloc::Global;
use uci_cli::{Refusal, Verb};
use uci_delta::{Change, Delta};
use uci_store::Store;
use uci_tree::{Package, Path, Place, SectionRef, find};

/// Stages a change.
pub fn stage<T: Disk>(
    alloc: Global,
    store: &mut Store,
    staged: &mut T,
    delta: Delta,
) -> Result<(), Stop>
    requires { IsReady store.old (T.view staged.old) }
    ensures changes { Changes result (folder_of store.old) (folder_of store.new)
        (spec.staged_with (folder_of store.old) delta) }
    ensures stages { Stages result store.old store.new (T.view staged.old) (T.view staged.new) }
{
    match store.stage(alloc, staged, COMMAND_LINE, delta) {
        Ok(()) => Ok(()),
        Err(error) => Err(stop_of(error)),
    }
}

/// `set PATH=V`, `add_list PATH=V`, `del_list PATH=V`, `delete PATH`, `rename PATH=N` and `reorder
/// PATH=K`.
pub fn stage_word<T: Disk>(
    alloc: Global,
    store: &mut Store,
    staged: &mut T,
    verb: Verb,
    word: &[u8],
) -> Result<(), Stop>
    requires { IsReady store.old (T.view staged.old) }
    ensures changes { Changes result (folder_of store.old) (folder_of store.new)
        (spec.stage_word verb (folder_of store.old) word.now) }
    ensures stages { Stages result store.old store.new (T.view staged.old) (T.view staged.new) }
{
    match cut_word(verb, word) {
        Some((path, value)) => stage_cut(alloc, store, staged, verb, path, value),
        None => Err(Stop::Refused(Refusal::Invalid)),
    }
}

fn stage_cut<T: Disk>(
    alloc: Global,
    store: &mut Store,
    staged: &mut T,
    verb: Verb,
    path: &[u8],
    value: &[u8],
) -> Result<(), Stop>
    requires { IsReady store.old (T.view staged.old) }
    ensures changes { Changes result (folder_of store.old) (folder_of store.new)
        (spec.stage_cut verb (folder_of store.old) path.now value.now) }
    ensures stages { Stages result store.old store.new (T.view staged.old) (T.view staged.new) }
{
    match read_word(alloc, path) {
        Ok(path) => stage_path(alloc, store, staged, verb, value, path),
        Err(stop) => Err(stop),
    }
}

fn stage_path<T: Disk>(
    alloc: Global,
    store: &mut Store,
    staged: &mut T,
    verb: Verb,
    value: &[u8],
    path: Path,
) -> Result<(), Stop>
    requires { IsReady store.old (T.view staged.old) }
    ensures changes { Changes result (folder_of store.old) (folder_of store.new)
        (spec.stage_path verb value.now (folder_of store.old) path) }
    ensures stages { Stages result store.old store.new (T.view staged.old) (T.view staged.new) }
{
    let Path {
        package,
        section,
        option,
    } = path;
    let Some(reference) = section else {
        return Err(Stop::Refused(Refusal::Invalid));
    };
    if !fits(verb, &option) {
        return Err(Stop::Refused(Refusal::Invalid));
    }
    let change = match change_of(alloc, verb, value) {
        Ok(change) => change,
        Err(_) => return Err(Stop::Memory),
    };
    stage_named(alloc, store, staged, package, reference, option, change)
}

fn stage_named<T: Disk>(
    alloc: Global,
    store: &mut Store,
    staged: &mut T,
    package: Text,
    reference: SectionRef,
    option: Option<Text>,
    change: Change,
) -> Result<(), Stop>
    requires { IsReady store.old (T.view staged.old) }
    ensures changes { Changes result (folder_of store.old) (folder_of store.new)
        (spec.stage_named (folder_of store.old) «package» reference option change) }
    ensures stages { Stages result store.old store.new (T.view staged.old) (T.view staged.new) }
{
    match name_in(alloc, store, package.as_bytes(), reference) {
        Ok(section) => stage(
            alloc,
            store,
            staged,
            Delta {
                package,
                section,
                option,
                change,
            },
        ),
        Err(stop) => Err(stop),
    }
}

/// The name that a path means: that of a section by its place is looked up.
pub fn name_in(
    alloc: Global,
    store: &Store,
    package: &[u8],
    reference: SectionRef,
) -> Result<Text, Stop>
    requires { IsStore store.now }
    ensures { Answers result (spec.name_in (folder_of store.now) «package».now reference) }
{
    match reference {
        SectionRef::Name(name) => Ok(name),
        SectionRef::Place { kind, index } => match see(alloc, store, package) {
            Ok(tree) => name_at(alloc, &tree, kind, index),
            Err(stop) => Err(stop),
        },
    }
}

fn name_at(alloc: Global, tree: &Package, kind: Text, index: i32) -> Result<Text, Stop>
    ensures { Answers result (ok_or (spec.name_at tree.now kind index) Refusal.NotFound) }
{
    let path = Path {
        package: Text::from_vec(Vec::new(alloc)),
        section: Some(SectionRef::Place { kind, index }),
        option: None,
    };
    match find(tree, &path) {
        Some(place) => name_of(tree, place),
        None => Err(Stop::Refused(Refusal::NotFound)),
    }
}

fn name_of(tree: &Package, place: Place) -> Result<Text, Stop>
    ensures { Answers result (ok_or (spec.name_of tree.now place) Refusal.NotFound) }
{
    match tree.sections.as_slice().get(place.section) {
        Some(section) => Ok(section.name.copy()?),
        None => Err(Stop::Refused(Refusal::NotFound)),
    }
}

fn fits(verb: Verb, option: &Option<Text>) -> bool
    ensures { result ≡ spec.fits verb option.now }
{
    match verb {
        Verb::Set | Verb::Delete | Verb::Rename => true,
        Verb::AddList | Verb::DelList => option.is_some(),
        Verb::Reorder => option.is_none(),
    }
}

fn change_of(alloc: Global, verb: Verb, value: &[u8]) -> Result<Change, Memory>
    ensures { IfOk result (λ change. change ≡ spec.change_of verb value.now) }
{
    if matches!(verb, Verb::Delete) {
        return Ok(Change::Remove);
    }
    let value = Text::from_bytes(alloc, value)?;
    match verb {
        Verb::Set => Ok(Change::Set(value)),
        Verb::AddList => Ok(Change::ListAdd(value)),
        Verb::DelList => Ok(Change::ListDel(value)),
        Verb::Delete => Ok(Change::Remove),
        Verb::Rename => Ok(Change::Rename(value)),
        Verb::Reorder => Ok(Change::Reorder(value)),
    }
}
