//! Staged changes that are dropped or written, and an apply that waits.
ghost use Rattle.std.specs.Prelude.{◌≡◌, ◌≢◌, None, false, [], IfErr};
ghost use Rattle.snap_disk.specs.Images.{SameDisk};
ghost use Rattle.uci_staged.specs.Kept.{Follows};
ghost use Rattle.uci_store.specs.Store.{names_of, snap_of, staged_in, has_failed, IsOnFiles};
ghost use Rattle.uci_store.specs.Store.{IsOnStaged};
ghost use Rattle.uci_store.specs.Stops.{StopLeaves};
ghost use Rattle.uci_store.specs.Committing.{CommitsTo};
ghost use Rattle.uci_store.specs.Applying.{AppliesTo};
ghost use Rattle.uci_store.specs.Waiting.{ConfirmsTo, RollsBackTo};
ghost use Rattle.rpc_rules.specs.Arguments.{config_in as config_of, apply_deadline as deadline_in};
ghost use Rattle.rpc_uci.specs.Call.{waiting_in};
ghost use Rattle.rpc_uci.specs.Done as spec;
ghost use Rattle.rpc_uci.specs.Staging.{HasCause};
ghost use Rattle.rpc_uci.specs.Ending.{IsOwn, HasDiskCause, UnlessFailed};

use crate::refused::{BAD_ARGUMENT, refused};
use crate::reply::Reply;
use blob_codec::Attr;
use plane_disk::Disk;
use plane_io::Text;
use rpc_rules::{RpcError, apply_deadline, config_in};
use std::alloc::Global;
use uci_store::Store;
use uci_tree::Path;

/// Drops what the holder has staged of the package that is named.
#[tactic(auto, using(crate::proofs::EndingLemmas::reverting))]
pub(crate) fn revert<T: Disk>(
    alloc: Global,
    store: &mut Store,
    staged: &mut T,
    holder: u128,
    args: &[Attr],
) -> Result<Reply, RpcError>
    requires on { IsOnStaged store.old (T.view staged.old) }
    requires ready { has_failed store.old ≡ false }
    ensures follows { Follows (T.view staged.old) (T.view staged.new) }
    ensures aside { holder ≢ 0 → staged.new ≡ staged.old }
    ensures on { IsOnStaged store.new (T.view staged.new) }
    ensures names { names_of store.new ≡ names_of store.old }
    ensures snap { snap_of store.new ≡ snap_of store.old }
    ensures done { spec.WithConfig (config_of args.now) store.old store.new result
        (spec.RevertDone holder store.old store.new result) }
    ensures untouched { IfErr result (UnlessFailed (staged.new ≡ staged.old)) }
    ensures cause { HasCause result (has_failed store.new) (T.view staged.old) (T.view staged.new) }
{
    let Some(name) = config_in(args) else {
        return Err(RpcError::Status(BAD_ARGUMENT));
    };
    let path = Path {
        package: Text::from_bytes(alloc, name)?,
        section: None,
        option: None,
    };
    match store.revert(alloc, staged, holder, &path) {
        Ok(()) => Ok(Reply::nothing(alloc)),
        Err(error) => Err(refused(error)),
    }
}

/// Writes the package that is named as the holder sees it.
#[tactic(auto, using(crate::proofs::EndingLemmas::committing))]
pub(crate) fn commit<D: Disk, T: Disk>(
    alloc: Global,
    store: &mut Store,
    files: &mut D,
    staged: &mut T,
    holder: u128,
    args: &[Attr],
) -> Result<Reply, RpcError>
    requires files { IsOnFiles store.old (D.view files.old) }
    requires staged { IsOnStaged store.old (T.view staged.old) }
    requires ready { has_failed store.old ≡ false }
    requires free { waiting_in store.old ≡ None }
    ensures same { SameDisk (D.view files.old) (D.view files.new) }
    ensures follows { Follows (T.view staged.old) (T.view staged.new) }
    ensures aside { holder ≢ 0 → staged.new ≡ staged.old }
    ensures files { IsOnFiles store.new (D.view files.new) }
    ensures staged { IsOnStaged store.new (T.view staged.new) }
    ensures names { names_of store.new ≡ names_of store.old }
    ensures images { StopLeaves store.old (D.view files.old) (D.view files.new)
        (spec.ConfigLeads (config_of args.now) (CommitsTo store.old holder)) }
    ensures done { spec.WithConfig (config_of args.now) store.old store.new result
        (spec.CommitDone holder store.old store.new result) }
    ensures untouched { IfErr result
        (UnlessFailed ((files.new ≡ files.old) × (staged.new ≡ staged.old))) }
    ensures cause { HasDiskCause result (has_failed store.new) (D.view files.old) (D.view files.new)
        (T.view staged.old) (T.view staged.new) }
{
    let Some(name) = config_in(args) else {
        return Err(RpcError::Status(BAD_ARGUMENT));
    };
    match store.commit(alloc, files, staged, holder, name) {
        Ok(()) => Ok(Reply::nothing(alloc)),
        Err(error) => Err(refused(error)),
    }
}

/// Writes all that the holder has staged, and lets it wait where the arguments say so.
#[tactic(auto, using(crate::proofs::EndingLemmas::applying))]
pub(crate) fn apply<D: Disk, T: Disk>(
    alloc: Global,
    store: &mut Store,
    files: &mut D,
    staged: &mut T,
    holder: u128,
    args: &[Attr],
    now: u64,
) -> Result<Reply, RpcError>
    requires files { IsOnFiles store.old (D.view files.old) }
    requires staged { IsOnStaged store.old (T.view staged.old) }
    requires ready { has_failed store.old ≡ false }
    requires free { waiting_in store.old ≡ None }
    ensures same { SameDisk (D.view files.old) (D.view files.new) }
    ensures follows { Follows (T.view staged.old) (T.view staged.new) }
    ensures aside { holder ≢ 0 → staged.new ≡ staged.old }
    ensures files { IsOnFiles store.new (D.view files.new) }
    ensures staged { IsOnStaged store.new (T.view staged.new) }
    ensures names { names_of store.new ≡ names_of store.old }
    ensures images { StopLeaves store.old (D.view files.old) (D.view files.new)
        (spec.DeadlineLeads (deadline_in args.now now) (AppliesTo store.old holder)) }
    ensures done { spec.WithDeadline (deadline_in args.now now) store.old store.new result
        (spec.ApplyDone holder store.old store.new result) }
    ensures untouched { IfErr result
        (UnlessFailed ((files.new ≡ files.old) × (staged.new ≡ staged.old))) }
    ensures cause { HasDiskCause result (has_failed store.new) (D.view files.old) (D.view files.new)
        (T.view staged.old) (T.view staged.new) }
{
    let deadline = match apply_deadline(args, now) {
        Ok(deadline) => deadline,
        Err(error) => return Err(error),
    };
    match store.apply(alloc, files, staged, holder, deadline) {
        Ok(()) => Ok(Reply::reloading(alloc)),
        Err(error) => Err(refused(error)),
    }
}

/// Lets what waits for the holder stay.
#[tactic(auto, using(crate::proofs::EndingLemmas::told_unless_failed))]
pub(crate) fn confirm<D: Disk>(
    alloc: Global,
    store: &mut Store,
    files: &mut D,
    holder: u128,
) -> Result<Reply, RpcError>
    requires files { IsOnFiles store.old (D.view files.old) }
    requires ready { has_failed store.old ≡ false }
    requires own { IsOwn holder (waiting_in store.old) }
    ensures same { SameDisk (D.view files.old) (D.view files.new) }
    ensures files { IsOnFiles store.new (D.view files.new) }
    ensures names { names_of store.new ≡ names_of store.old }
    ensures kept { staged_in store.new ≡ staged_in store.old }
    ensures images { StopLeaves store.old (D.view files.old) (D.view files.new)
        (ConfirmsTo store.old holder) }
    ensures done { spec.EndDone (spec.quiet []) (ConfirmsTo store.old holder)
        store.old store.new result }
    ensures untouched { IfErr result (UnlessFailed (files.new ≡ files.old)) }
    ensures cause { HasCause result (has_failed store.new) (D.view files.old) (D.view files.new) }
{
    match store.confirm(files, holder) {
        Ok(()) => Ok(Reply::nothing(alloc)),
        Err(error) => Err(refused(error)),
    }
}

/// Undoes what waits for the holder.
#[tactic(auto, using(crate::proofs::EndingLemmas::told_unless_failed))]
pub(crate) fn rollback<D: Disk>(
    alloc: Global,
    store: &mut Store,
    files: &mut D,
    holder: u128,
) -> Result<Reply, RpcError>
    requires files { IsOnFiles store.old (D.view files.old) }
    requires ready { has_failed store.old ≡ false }
    requires own { IsOwn holder (waiting_in store.old) }
    ensures same { SameDisk (D.view files.old) (D.view files.new) }
    ensures files { IsOnFiles store.new (D.view files.new) }
    ensures names { names_of store.new ≡ names_of store.old }
    ensures kept { staged_in store.new ≡ staged_in store.old }
    ensures images { StopLeaves store.old (D.view files.old) (D.view files.new)
        (RollsBackTo store.old holder) }
    ensures done { spec.EndDone spec.reloading (RollsBackTo store.old holder)
        store.old store.new result }
    ensures untouched { IfErr result (UnlessFailed (files.new ≡ files.old)) }
    ensures cause { HasCause result (has_failed store.new) (D.view files.old) (D.view files.new) }
{
    match store.rollback(files, holder) {
        Ok(()) => Ok(Reply::reloading(alloc)),
        Err(error) => Err(refused(error)),
    }
}
