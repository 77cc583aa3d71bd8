//! `import`.
ghost use Rattle.std.specs.Prelude.{◌≡◌, ◌≤◌, length};
ghost use Rattle.plane_io.specs.declared.input.TheConstants.{INPUT_LIMIT};
ghost use Rattle.uci_tool.specs.Answers.{Changes, Writes, IsOpen};
ghost use Rattle.uci_tool.specs.Folder.{folder_of};
ghost use Rattle.uci_tool.specs.Import as spec;
ghost use Rattle.uci_tool.specs.Merging.{merged};
ghost use Rattle.uci_tool.specs.Passes.{step_to};
ghost use Rattle.uci_tool.specs.Seen.{if_ok};
ghost use Rattle.uci_tool.specs.Stops.{StaysOrStops};

use crate::Stop;
use crate::merging::merge_text;
use crate::seeing::{COMMAND_LINE, see};
use crate::stop::{stop_of, stop_of_tree};
use plane_disk::Disk;
use std::alloc::Global;
use uci_cli::Options;
use uci_store::Store;
use uci_tree::{Package, read_package};

/// `import P`, and with `-m` over what is seen.
pub fn import<D: Disk, T: Disk>(
    alloc: Global,
    options: &Options,
    store: &mut Store,
    files: &mut D,
    staged: &mut T,
    name: &[u8],
    input: &[u8],
) -> Result<(), Stop>
    requires open { IsOpen store.old (D.view files.old) (T.view staged.old) }
    requires within { length input.now ≤ INPUT_LIMIT }
    ensures changes { Changes result (folder_of store.old) (folder_of store.new)
        (spec.import_done options.now (folder_of store.old) name.now input.now) }
    ensures writes { Writes result store.old store.new
        (D.view files.old) (D.view files.new) (T.view staged.old) (T.view staged.new) }
    ensures images { StaysOrStops store.old D.view files.old files.new
        (step_to (folder_of store.old)
        (spec.import_done options.now (folder_of store.old) name.now input.now)) }
{
    match read_package(alloc, name, input) {
        Ok(tree) => {
            if options.merge {
                merge_over(alloc, store, files, staged, name, input)
            } else {
                replace(alloc, store, files, staged, &tree)
            }
        }
        Err(error) => Err(stop_of_tree(error)),
    }
}

fn merge_over<D: Disk, T: Disk>(
    alloc: Global,
    store: &mut Store,
    files: &mut D,
    staged: &mut T,
    name: &[u8],
    input: &[u8],
) -> Result<(), Stop>
    requires open { IsOpen store.old (D.view files.old) (T.view staged.old) }
    requires within { length input.now ≤ INPUT_LIMIT }
    ensures changes { Changes result (folder_of store.old) (folder_of store.new)
        (spec.merge_done (folder_of store.old) name.now input.now) }
    ensures writes { Writes result store.old store.new
        (D.view files.old) (D.view files.new) (T.view staged.old) (T.view staged.new) }
    ensures images { StaysOrStops store.old D.view files.old files.new
        (step_to (folder_of store.old)
        (spec.merge_done (folder_of store.old) name.now input.now)) }
{
    match see(alloc, store, name) {
        Ok(view) => replace_by(alloc, store, files, staged, view, input),
        Err(stop) => Err(stop),
    }
}

fn replace_by<D: Disk, T: Disk>(
    alloc: Global,
    store: &mut Store,
    files: &mut D,
    staged: &mut T,
    view: Package,
    input: &[u8],
) -> Result<(), Stop>
    requires open { IsOpen store.old (D.view files.old) (T.view staged.old) }
    requires within { length input.now ≤ INPUT_LIMIT }
    ensures changes { Changes result (folder_of store.old) (folder_of store.new)
        (if_ok (merged view input.now) (spec.replaced (folder_of store.old))) }
    ensures writes { Writes result store.old store.new
        (D.view files.old) (D.view files.new) (T.view staged.old) (T.view staged.new) }
    ensures images { StaysOrStops store.old D.view files.old files.new
        (step_to (folder_of store.old)
        (if_ok (merged view input.now) (spec.replaced (folder_of store.old)))) }
{
    match merge_text(alloc, view, input) {
        Ok(tree) => replace(alloc, store, files, staged, &tree),
        Err(stop) => Err(stop),
    }
}

fn replace<D: Disk, T: Disk>(
    alloc: Global,
    store: &mut Store,
    files: &mut D,
    staged: &mut T,
    tree: &Package,
) -> Result<(), Stop>
    requires { IsOpen store.old (D.view files.old) (T.view staged.old) }
    ensures changes { Changes result (folder_of store.old) (folder_of store.new)
        (spec.replaced (folder_of store.old) tree.now) }
    ensures writes { Writes result store.old store.new
        (D.view files.old) (D.view files.new) (T.view staged.old) (T.view staged.new) }
    ensures images { StaysOrStops store.old D.view files.old files.new
        (step_to (folder_of store.old)
        (spec.replaced (folder_of store.old) tree.now)) }
{
    match store.replace(alloc, files, staged, COMMAND_LINE, tree) {
        Ok(()) => Ok(()),
        Err(error) => Err(stop_of(error)),
    }
}
