ghost use Rattle.std.specs.Prelude.{◌≡◌, [], IfOk, IfErr};
ghost use Rattle.uci_store.specs.Store.{IsStore};
ghost use Rattle.uci_tool.specs.Folder.{folder_of};
ghost use Rattle.net_plane.specs.Network.{HasSameKernel};
ghost use Rattle.step_net.specs.Loaded as spec;
ghost use Rattle.step_net.specs.Loaded.{IsLoaded, LoadRefuses};
ghost use Rattle.step_net.specs.Reload.{ReloadAsks};
ghost use Rattle.step_net.specs.ReloadTaken.{TakesOneEvent, RefusesUnread};

use crate::{Taken, take_load};
use net_plane::Net;
use plane_io::{Items, Memory, Text};
use script_lines::LineError;
use std::alloc::Global;
use uci_store::{Store, StoreError};
use uci_tree::{Package, TreeError};

/// The files are loaded as they are committed.
///
/// # Errors
///
/// Want of memory, before anything is done or for what is to be told of it.
pub fn reload(alloc: Global, store: &Store, net: &mut Net) -> Result<Taken, Memory>
    requires store { IsStore store.now }
    requires told { net.old.notices ≡ [] }
    ensures takes { TakesOneEvent (ReloadAsks (folder_of store.now)) net.old net.new result }
    ensures kernel { HasSameKernel net.old net.new }
{
    let network = match load_package(alloc, store, b"network") {
        Ok(network) => network,
        Err(error) => return refuse_unread(alloc, error),
    };
    let wireless = match load_package(alloc, store, b"wireless") {
        Ok(wireless) => wireless,
        Err(error) => return refuse_unread(alloc, error),
    };
    take_load(alloc, net, &network, &wireless)
}

/// The package of that name as it is committed. One that no file has says nothing.
///
/// # Errors
///
/// The first fault of its file, or `Memory`.
pub fn load_package(alloc: Global, store: &Store, name: &[u8]) -> Result<Package, TreeError>
    requires { IsStore store.now }
    ensures found { IfOk result (IsLoaded (folder_of store.now) name.now) }
    ensures refused { IfErr result (LoadRefuses (folder_of store.now) name.now) }
{
    match store.committed(alloc, name) {
        Ok(tree) => Ok(tree),
        Err(StoreError::NoPackage) => Ok(no_package(alloc)),
        Err(StoreError::Parse(error)) => Err(error),
        Err(_) => Err(TreeError::Memory),
    }
}

// A file that is no package is not loaded.
fn refuse_unread(alloc: Global, error: TreeError) -> Result<Taken, Memory>
    ensures { RefusesUnread error result }
{
    match error.fault() {
        Some(_) => Ok(Taken::refused(alloc, LineError::Parse)),
        None => Err(Memory),
    }
}

fn no_package(alloc: Global) -> Package
    ensures { result ≡ spec.no_package }
{
    Package {
        name: Text::from_vec(Vec::new(alloc)),
        sections: Items::new(alloc),
        made: 0,
    }
}
