//! What holders see, and what they have staged.
ghost use Rattle.std.specs.Prelude.{◌≡◌, Ok, Err, IfOk, IfErr};
ghost use Rattle.uci_store.specs.Store.{IsStore};
ghost use Rattle.rpc_uci.specs.Sight as spec;
ghost use Rattle.rpc_rules.specs.Arguments.{config_in as config_of};
ghost use Rattle.rpc_uci.specs.Outcome.{SeesNamed};
ghost use Rattle.rpc_uci.specs.Done.{IsStatusFor};

use crate::refused::{BAD_ARGUMENT, refused};
use blob_codec::Attr;
use plane_io::{Items, Memory, Text};
use rpc_rules::{RpcError, config_in};
use std::alloc::Global;
use uci_delta::Delta;
use uci_store::{Store, StoreError};
use uci_tree::Package;

/// The package of that name as the holder sees it.
fn see(alloc: Global, store: &Store, holder: u128, name: &[u8]) -> Result<Package, RpcError>
    requires { IsStore store.now }
    ensures seen { IfOk result (λ view. spec.Sees store.now holder name.now (Ok view)) }
    ensures unseen { IfErr result (IsStatusFor (λ status.
        spec.Sees store.now holder name.now (Err status))) }
{
    match store.view(alloc, holder, name) {
        Ok(view) => Ok(view),
        Err(error) => Err(refused(error)),
    }
}

/// The package that the arguments name as the holder sees it, where they are of their form.
#[tactic(auto, using(crate::proofs::SightLemmas::seen_by_name))]
pub(crate) fn see_named(
    alloc: Global,
    store: &Store,
    holder: u128,
    fits: bool,
    args: &[Attr],
) -> Result<Package, RpcError>
    requires { IsStore store.now }
    ensures seen { IfOk result (λ view.
        SeesNamed store.now holder fits (config_of args.now) (Ok view)) }
    ensures unseen { IfErr result (IsStatusFor (λ status.
        SeesNamed store.now holder fits (config_of args.now) (Err status))) }
{
    if !fits {
        return Err(RpcError::Status(BAD_ARGUMENT));
    }
    let Some(name) = config_in(args) else {
        return Err(RpcError::Status(BAD_ARGUMENT));
    };
    match see(alloc, store, holder, name) {
        Ok(view) => Ok(view),
        Err(error) => Err(error),
    }
}

/// What the holder has staged of the package of that name: nothing where there is no such package.
#[tactic(auto, using(crate::proofs::SightLemmas::changes_by_name))]
pub(crate) fn deltas_named(
    alloc: Global,
    store: &Store,
    holder: u128,
    name: &[u8],
) -> Result<Items<Delta>, Memory>
    requires { IsStore store.now }
    ensures { IfOk result (λ deltas. deltas ≡ spec.deltas_named holder store.now name.now) }
{
    match store.changes(alloc, holder, name) {
        Ok(deltas) => Ok(deltas),
        Err(StoreError::NoPackage) => Ok(Items::new(alloc)),
        Err(_) => Err(Memory),
    }
}

/// The packages of which the holder has staged something.
pub(crate) fn staged_names(alloc: Global, store: &Store, holder: u128) -> Result<Vec<Text>, Memory>
    requires { IsStore store.now }
    ensures { IfOk result (λ names. names.items ≡ spec.staged_names holder store.now) }
{
    let packages = store.packages();
    let mut names = Vec::new(alloc);
    for name in packages {
        if has_staged(alloc, store, holder, name.as_bytes())? {
            names.push(name.copy()?)?;
        }
    }
    Ok(names)
}

/// Whether the holder has staged something of the package of that name.
pub(crate) fn has_staged(
    alloc: Global,
    store: &Store,
    holder: u128,
    name: &[u8],
) -> Result<bool, Memory>
    requires { IsStore store.now }
    ensures { IfOk result (λ some.
        some ≡ spec.are_some (spec.deltas_named holder store.now name.now)) }
{
    let deltas = deltas_named(alloc, store, holder, name)?;
    Ok(are_some(deltas.as_slice()))
}

/// Whether there are some.
pub(crate) fn are_some(deltas: &[Delta]) -> bool
    ensures { result ≡ spec.are_some deltas.now }
{
    match deltas {
        [] => false,
        [_, ..] => true,
    }
}
