//! What the command line sees of packages.
ghost use Rattle.std.specs.Prelude.{◌≡◌};
ghost use Rattle.uci_store.specs.Store.{IsStore};
ghost use Rattle.uci_tool.specs.Answers.{Answers};
ghost use Rattle.uci_tool.specs.Folder.{folder_of};
ghost use Rattle.uci_tool.specs.Seen as spec;

use crate::Stop;
use crate::stop::stop_of;
use std::alloc::Global;
use uci_store::Store;
use uci_tree::Package;

/// The holder of the command line's changes.
pub const COMMAND_LINE: u128 = 0;

/// The package of that name, as the command line sees it.
pub fn see(alloc: Global, store: &Store, name: &[u8]) -> Result<Package, Stop>
    requires { IsStore store.now }
    ensures { Answers result (spec.seen (folder_of store.now) name.now) }
{
    match store.view(alloc, COMMAND_LINE, name) {
        Ok(tree) => Ok(tree),
        Err(error) => Err(stop_of(error)),
    }
}
