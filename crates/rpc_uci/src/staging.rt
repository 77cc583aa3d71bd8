//! Changes that calls stage: tried on the view first, and staged at once where none is refused.
ghost use Rattle.std.specs.Prelude.{◌≡◌, ◌≢◌, Some, Ok, Err, false, IfOk, IfErr, OnOk, OnErr};
ghost use Rattle.uci_staged.specs.Kept.{Follows};
ghost use Rattle.uci_store.specs.Store.{names_of, snap_of, staged_in, has_failed, IsStore};
ghost use Rattle.uci_store.specs.Store.{IsOnStaged};
ghost use Rattle.rpc_rules.specs.Arguments.{config_in as config_of, holder_of};
ghost use Rattle.rpc_uci.specs.Outcome.{EditComesTo};
ghost use Rattle.rpc_uci.specs.Done as spec;
ghost use Rattle.rpc_uci.specs.Done.{IsStatusFor};
ghost use Rattle.rpc_uci.specs.Staging.{IsStageable, IsCut, HasCause};
ghost use Rattle.rpc_uci.specs.Ending.{UnlessFailed};

use crate::refused::{BAD_ARGUMENT, refused};
use crate::reply::Reply;
use crate::seeing::see_named;
use blob_codec::Attr;
use plane_disk::Disk;
use rpc_rules::{Caller, Edit, Plan, RpcError, config_in, edit_fits, planned};
use std::alloc::Global;
use uci_delta::Delta;
use uci_store::Store;

/// Carries out a method that stages changes of a package.
#[tactic(auto, using(crate::proofs::StagingLemmas::edits))]
pub(crate) fn stage_edit<T: Disk>(
    alloc: Global,
    store: &mut Store,
    staged: &mut T,
    edit: Edit,
    caller: Caller,
    args: &[Attr],
) -> Result<Reply, RpcError>
    requires on { IsOnStaged store.old (T.view staged.old) }
    requires ready { has_failed store.old ≡ false }
    ensures follows { Follows (T.view staged.old) (T.view staged.new) }
    ensures aside { holder_of caller ≢ 0 → staged.new ≡ staged.old }
    ensures on { IsOnStaged store.new (T.view staged.new) }
    ensures names { names_of store.new ≡ names_of store.old }
    ensures snap { snap_of store.new ≡ snap_of store.old }
    ensures done { spec.EditDone edit (holder_of caller) args.now store.old store.new result }
    ensures untouched { IfErr result (UnlessFailed (staged.new ≡ staged.old)) }
    ensures cause { HasCause result (has_failed store.new) (T.view staged.old) (T.view staged.new) }
{
    let holder = caller.holder();
    let Some(name) = config_in(args) else {
        return Err(RpcError::Status(BAD_ARGUMENT));
    };
    let plan = match plan_edit(alloc, store, edit, holder, name, args) {
        Ok(plan) => plan,
        Err(error) => return Err(error),
    };
    let Plan { deltas, told, .. } = plan;
    match stage_all(alloc, store, staged, holder, name, deltas.into_vec()) {
        Ok(()) => Ok(Reply::quiet(told)),
        Err(error) => Err(error),
    }
}

/// What the method is to stage of the package that the arguments name.
#[tactic(auto, using(crate::proofs::SightLemmas::sight_of))]
fn plan_edit(
    alloc: Global,
    store: &Store,
    edit: Edit,
    holder: u128,
    name: &[u8],
    args: &[Attr],
) -> Result<Plan, RpcError>
    requires store { IsStore store.now }
    requires named { config_of args.now ≡ Some name.now }
    ensures planned { IfOk result (λ plan. EditComesTo edit store.now holder args.now (Ok plan)) }
    ensures refused { IfErr result (IsStatusFor (λ status.
        EditComesTo edit store.now holder args.now (Err status))) }
{
    let view = match see_named(alloc, store, holder, edit_fits(edit, args), args) {
        Ok(view) => view,
        Err(error) => return Err(error),
    };
    match planned(alloc, edit, name, args, view) {
        Ok(plan) => Ok(plan),
        Err(error) => Err(error),
    }
}

/// Stages changes of a package at once, which the holder's view takes one after another.
#[tactic(auto, using(crate::proofs::StagingLemmas::staged_or_told))]
fn stage_all<T: Disk>(
    alloc: Global,
    store: &mut Store,
    staged: &mut T,
    holder: u128,
    name: &[u8],
    deltas: Vec<Delta>,
) -> Result<(), RpcError>
    requires on { IsOnStaged store.old (T.view staged.old) }
    requires ready { has_failed store.old ≡ false }
    requires fits { IsStageable store.old holder name.now deltas.items }
    ensures follows { Follows (T.view staged.old) (T.view staged.new) }
    ensures aside { holder ≢ 0 → staged.new ≡ staged.old }
    ensures on { IsOnStaged store.new (T.view staged.new) }
    ensures names { names_of store.new ≡ names_of store.old }
    ensures snap { snap_of store.new ≡ snap_of store.old }
    ensures done { OnOk result (spec.HasStagedAll store.old store.new holder deltas.items) }
    ensures kept { OnErr result (staged_in store.new ≡ staged_in store.old) }
    ensures cut { IfErr result (IsCut deltas.items) }
    ensures untouched { IfErr result (UnlessFailed (staged.new ≡ staged.old)) }
    ensures cause { HasCause result (has_failed store.new) (T.view staged.old) (T.view staged.new) }
{
    if deltas.is_empty() {
        return Ok(());
    }
    match store.stage_all(alloc, staged, holder, name, deltas) {
        Ok(()) => Ok(()),
        Err(error) => Err(refused(error)),
    }
}
