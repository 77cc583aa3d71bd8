//! Commands that print and change nothing.
ghost use Rattle.std.specs.Prelude.{◌≡◌, true, Some, Ok, IfOk};
ghost use Rattle.uci_tree.specs.Print.{printed};
ghost use Rattle.uci_cli.specs.Changes.{HaveShape, change_lines};
ghost use Rattle.uci_store.specs.Store.{names_of, staged_in, IsStore};
ghost use Rattle.uci_tool.specs.Answers.{Answers, IsFound, IsAlone, HaveShapes};
ghost use Rattle.uci_tool.specs.Folder.{folder_of};
ghost use Rattle.uci_tool.specs.Texts as spec;

use crate::Stop;
use crate::paths::read_word;
use crate::seeing::{COMMAND_LINE, see};
use crate::stop::stop_of;
use plane_io::{Memory, Text};
use std::alloc::Global;
use uci_cli::{Options, Refusal, give_path, print_changes, show_package, show_path};
use uci_delta::Delta;
use uci_store::Store;
use uci_tree::{Package, Path, print_package};

/// What is listed of packages.
#[derive(Clone, Copy)]
pub enum Listing {
    /// `show`
    Show,
    /// `changes`
    Changes,
    /// `export`
    Export,
}

/// What was printed, and why no more was.
#[derive(Drop)]
pub struct Printed {
    pub output: Text,
    pub refusal: Option<Refusal>,
}

/// `show PATH`.
pub fn show_word(alloc: Global, options: &Options, store: &Store, word: &[u8]) -> Result<Text, Stop>
    requires { IsStore store.now }
    ensures { Answers result (spec.show_word options.now (folder_of store.now) word.now) }
{
    match read_word(alloc, word) {
        Ok(path) => show_of(alloc, options, store, &path),
        Err(stop) => Err(stop),
    }
}

fn show_of(alloc: Global, options: &Options, store: &Store, path: &Path) -> Result<Text, Stop>
    requires { IsStore store.now }
    ensures { Answers result (spec.show_of options.now (folder_of store.now) path.now) }
{
    match see(alloc, store, path.package.as_bytes()) {
        Ok(tree) => found(show_path(alloc, options, &tree, path)),
        Err(stop) => Err(stop),
    }
}

/// `get PATH`.
pub fn get_word(alloc: Global, options: &Options, store: &Store, word: &[u8]) -> Result<Text, Stop>
    requires { IsStore store.now }
    ensures { Answers result (spec.get_word options.now (folder_of store.now) word.now) }
{
    match read_word(alloc, word) {
        Ok(path) => get_path(alloc, options, store, &path),
        Err(stop) => Err(stop),
    }
}

fn get_path(alloc: Global, options: &Options, store: &Store, path: &Path) -> Result<Text, Stop>
    requires { IsStore store.now }
    ensures { Answers result (spec.get_path options.now (folder_of store.now) path.now) }
{
    if path.section.is_none() {
        return Err(Stop::Refused(Refusal::Invalid));
    }
    match see(alloc, store, path.package.as_bytes()) {
        Ok(tree) => found(give_path(alloc, options.between.as_bytes(), &tree, path)),
        Err(stop) => Err(stop),
    }
}

/// What was found, where it is there.
fn found(text: Result<Option<Text>, Memory>) -> Result<Text, Stop>
    ensures { IsFound text result }
{
    match text {
        Ok(Some(text)) => Ok(text),
        Ok(None) => Err(Stop::Refused(Refusal::NotFound)),
        Err(_) => Err(Stop::Memory),
    }
}

/// What is listed of a package.
pub fn list(
    alloc: Global,
    listing: Listing,
    options: &Options,
    store: &Store,
    name: &[u8],
) -> Result<Text, Stop>
    requires store { IsStore store.now }
    requires shapes { HaveShapes (staged_in store.now) }
    ensures { Answers result (spec.listed listing options.now (folder_of store.now) name.now) }
{
    match listing {
        Listing::Show => show_one(alloc, options, store, name),
        Listing::Changes => changes_of(alloc, store, name),
        Listing::Export => export_package(alloc, options, store, name),
    }
}

fn show_one(alloc: Global, options: &Options, store: &Store, name: &[u8]) -> Result<Text, Stop>
    requires { IsStore store.now }
    ensures { Answers result (spec.show_package options.now (folder_of store.now) name.now) }
{
    match see(alloc, store, name) {
        Ok(tree) => Ok(show_package(alloc, options, &tree)?),
        Err(stop) => Err(stop),
    }
}

fn changes_of(alloc: Global, store: &Store, name: &[u8]) -> Result<Text, Stop>
    requires store { IsStore store.now }
    requires shapes { HaveShapes (staged_in store.now) }
    ensures { Answers result (spec.changes_of (folder_of store.now) name.now) }
{
    match store.changes(alloc, COMMAND_LINE, name) {
        Ok(deltas) => print_deltas(alloc, deltas.as_slice()),
        Err(error) => Err(stop_of(error)),
    }
}

fn print_deltas(alloc: Global, deltas: &[Delta]) -> Result<Text, Stop>
    requires { HaveShape deltas.now }
    ensures { Answers result (Ok (change_lines deltas.now)) }
{
    let mut out = Vec::new(alloc);
    print_changes(&mut out, deltas)?;
    Ok(Text::from_vec(out))
}

fn export_package(
    alloc: Global,
    options: &Options,
    store: &Store,
    name: &[u8],
) -> Result<Text, Stop>
    requires { IsStore store.now }
    ensures { Answers result (spec.export_package options.now (folder_of store.now) name.now) }
{
    match see(alloc, store, name) {
        Ok(tree) => export(alloc, options, &tree),
        Err(stop) => Err(stop),
    }
}

fn export(alloc: Global, options: &Options, tree: &Package) -> Result<Text, Stop>
    ensures { Answers result (Ok (printed tree.now true options.now.names)) }
{
    let text = print_package(alloc, tree, true, options.names)?;
    Ok(Text::from_vec(text))
}

/// What is listed of each package, one after another, up to the first that is refused.
pub fn list_each(
    alloc: Global,
    listing: Listing,
    options: &Options,
    store: &Store,
) -> Result<Printed, Memory>
    requires store { IsStore store.now }
    requires shapes { HaveShapes (staged_in store.now) }
    ensures { IfOk result (λ printed. printed
        ≡ spec.each (spec.listed listing options.now (folder_of store.now)) (names_of store.now)) }
{
    let mut output = Vec::new(alloc);
    for name in store.packages() {
        match list(alloc, listing, options, store, name.as_bytes()) {
            Ok(text) => output.extend_from_slice(text.as_bytes())?,
            Err(Stop::Refused(refusal)) => return Ok(stopped(output, refusal)),
            Err(_) => return Err(Memory),
        }
    }
    Ok(Printed {
        output: Text::from_vec(output),
        refusal: None,
    })
}

fn stopped(output: Vec<u8>, refusal: Refusal) -> Printed
    ensures { result ≡ record { output = output.items; refusal = Some refusal } }
{
    Printed {
        output: Text::from_vec(output),
        refusal: Some(refusal),
    }
}

/// What was printed of one package.
pub fn alone(alloc: Global, text: Result<Text, Stop>) -> Result<Printed, Stop>
    ensures { IsAlone text result }
{
    match text {
        Ok(output) => Ok(Printed {
            output,
            refusal: None,
        }),
        Err(Stop::Refused(refusal)) => Ok(stopped(Vec::new(alloc), refusal)),
        Err(stop) => Err(stop),
    }
}
