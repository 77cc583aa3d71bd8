//! The packages of which rows are loaded.
ghost use Rattle.std.specs.Prelude.{◌≡◌, IfOk, IfErr, IfSome, IfNone};
ghost use Rattle.uci_store.specs.Store.{IsStore};
ghost use Rattle.uci_tree.specs.Fault.{fault_of};
ghost use Rattle.uci_tool.specs.Folder.{folder_of};
ghost use Rattle.step_net.specs.Loaded.{IsLoaded, network_name, wireless_name};
ghost use Rattle.plane_run.specs.RunEnd.{name_of};
ghost use Rattle.plane_run.specs.Parts.{LoadRefuses, RowsRefuse};

use crate::run_end::{RowPackage, RunEnd};
use std::alloc::Global;
use step_net::load_package;
use uci_store::Store;
use uci_tree::{Package, TreeError};

/// The `network` and the `wireless` package, as they are committed.
pub(crate) fn load_rows(alloc: Global, store: &Store) -> Result<(Package, Package), RunEnd>
    requires { IsStore store.now }
    ensures found { IfOk result (λ rows. IsLoaded (folder_of store.now) network_name rows.0
        × IsLoaded (folder_of store.now) wireless_name rows.1) }
    ensures refused { IfErr result (RowsRefuse (folder_of store.now)) }
{
    let network = match load(alloc, store, RowPackage::Network) {
        Ok(network) => network,
        Err(end) => return Err(end),
    };
    let wireless = match load(alloc, store, RowPackage::Wireless) {
        Ok(wireless) => wireless,
        Err(end) => return Err(end),
    };
    Ok((network, wireless))
}

fn load(alloc: Global, store: &Store, which: RowPackage) -> Result<Package, RunEnd>
    requires { IsStore store.now }
    ensures found { IfOk result (IsLoaded (folder_of store.now) (name_of which)) }
    ensures refused { IfErr result (LoadRefuses (folder_of store.now) which) }
{
    match load_package(alloc, store, which.name()) {
        Ok(tree) => Ok(tree),
        Err(error) => Err(unreadable(which, error)),
    }
}

fn unreadable(package: RowPackage, error: TreeError) -> RunEnd
    ensures fault { IfSome (fault_of error) (λ fault.
        result ≡ RunEnd.Unreadable «package» fault) }
    ensures lacking { IfNone (fault_of error) (result ≡ RunEnd.OutOfMemory) }
{
    match error.fault() {
        Some(fault) => RunEnd::Unreadable { package, fault },
        None => RunEnd::OutOfMemory,
    }
}
