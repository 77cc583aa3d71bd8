ghost use Rattle.std.specs.Prelude.{◌≡◌, ◌≢◌, Some, None, Err, false, IfOk, IfErr};
ghost use Rattle.snap_disk.specs.Images.{SameDisk};
ghost use Rattle.uci_staged.specs.Kept.{Follows};
ghost use Rattle.uci_store.specs.Store.{names_of, has_failed, IsStore, IsOnFiles, IsOnStaged};
ghost use Rattle.uci_store.specs.Stops.{StopLeaves};
ghost use Rattle.rpc_session.specs.declared.grant.Grant.{Grant as GrantOf};
ghost use Rattle.rpc_rules.specs.Method.{method_of};
ghost use Rattle.rpc_rules.specs.Arguments.{caller_in, holder_of};
ghost use Rattle.rpc_rules.specs.Grants.{is_admitted};
ghost use Rattle.rpc_uci.specs.Sight.{staged_names as names_staged};
ghost use Rattle.rpc_uci.specs.Call.{call_by, missing as missing_of, renewed};
ghost use Rattle.rpc_uci.specs.Call.{waiting_in as waiting_of};
ghost use Rattle.rpc_uci.specs.Done as spec;
ghost use Rattle.rpc_uci.specs.Ending.{HasDiskCause, UnlessFailed, LeavesAlone, CallLeavesAlone};

use crate::asking::ask;
use crate::ending::{apply, commit, confirm, revert, rollback};
use crate::refused::{NO_METHOD, NOT_FOUND};
use crate::reply::Reply;
use crate::seeing::staged_names;
use crate::staging::stage_edit;
use blob_codec::Attr;
use plane_disk::Disk;
use plane_io::{Memory, Text};
use rpc_rules::{Caller, Method, RpcError, first_missing, needed};
use rpc_session::{Grant, Sessions};
use std::alloc::Global;
use uci_store::Store;

/// Carries out a call of the object `uci`, and gives its answer.
///
/// The methods are `configs`, `get`, `add`, `set`, `delete`, `rename`, `order`, `changes`,
/// `revert`, `commit`, `apply`, `confirm` and `rollback`. The session that the argument
/// `ubus_rpc_session` names holds the staged changes; without it they are the command line's, and
/// no grant of a package is asked. A live session that is named is renewed, whatever the method is
/// and whether it is refused.
///
/// # Errors
///
/// In this order: `Status` 3 where there is no such method; `Status` 4 where no live session has
/// the id that is named; `Denied` exactly where a grant is missing, with the first one that is;
/// `Status` 2 where an argument is missing or of another form; `Status` 4 where a package, a
/// section or an option that is named is not there; `Status` 2 where a package does not read or
/// does not take a change, 5 where nothing is staged or nothing waits, 9 where a package is too
/// large for its file. `DiskFailed` only where a disk failed, and `Memory`. None of the changes of
/// a call is staged where it is refused, in whatever way; after a disk failed the new files of a
/// `commit` or an `apply` may be written.
pub fn serve<D: Disk, T: Disk>(
    alloc: Global,
    sessions: &mut Sessions,
    store: &mut Store,
    files: &mut D,
    staged: &mut T,
    method: &[u8],
    args: &[Attr],
    now: u64,
) -> Result<Reply, RpcError>
    requires files { IsOnFiles store.old (D.view files.old) }
    requires staged { IsOnStaged store.old (T.view staged.old) }
    requires ready { has_failed store.old ≡ false }
    ensures sessions { sessions.new ≡ renewed (caller_in args.now) now sessions.old }
    ensures number { sessions.new.next ≡ sessions.old.next }
    ensures same { SameDisk (D.view files.old) (D.view files.new) }
    ensures follows { Follows (T.view staged.old) (T.view staged.new) }
    ensures aside { holder_of (caller_in args.now) ≢ 0 → staged.new ≡ staged.old }
    ensures files { IsOnFiles store.new (D.view files.new) }
    ensures staged { IsOnStaged store.new (T.view staged.new) }
    ensures names { names_of store.new ≡ names_of store.old }
    ensures images { StopLeaves store.old (D.view files.old) (D.view files.new)
        (spec.Leads sessions.old method.now args.now now store.old) }
    ensures done { spec.Answers sessions.old method.now args.now now store.old store.new result }
    ensures denied { (grant : GrantOf) → result ≡ Err (RpcError.Denied grant) →
        spec.denied sessions.old method.now args.now now store.old ≡ Some grant }
    ensures denies { (grant : GrantOf) → result ≢ Err RpcError.Memory →
        spec.denied sessions.old method.now args.now now store.old ≡ Some grant →
        result ≡ Err (RpcError.Denied grant) }
    ensures reload { IfOk result (λ reply. reply.reload ≡ spec.reloads (method_of method.now)) }
    ensures alone { CallLeavesAlone (method_of method.now)
        (files.new ≡ files.old) (staged.new ≡ staged.old) }
    ensures untouched { IfErr result
        (UnlessFailed ((files.new ≡ files.old) × (staged.new ≡ staged.old))) }
    ensures cause { HasDiskCause result (has_failed store.new) (D.view files.old) (D.view files.new)
        (T.view staged.old) (T.view staged.new) }
{
    answer(alloc, sessions, store, files, staged, method, args, now)
}

/// Carries out a call: its method, its session and its grants go first.
fn answer<D: Disk, T: Disk>(
    alloc: Global,
    sessions: &mut Sessions,
    store: &mut Store,
    files: &mut D,
    staged: &mut T,
    method: &[u8],
    args: &[Attr],
    now: u64,
) -> Result<Reply, RpcError>
    requires files { IsOnFiles store.old (D.view files.old) }
    requires staged { IsOnStaged store.old (T.view staged.old) }
    requires ready { has_failed store.old ≡ false }
    ensures sessions { sessions.new ≡ renewed (caller_in args.now) now sessions.old }
    ensures number { sessions.new.next ≡ sessions.old.next }
    ensures same { SameDisk (D.view files.old) (D.view files.new) }
    ensures follows { Follows (T.view staged.old) (T.view staged.new) }
    ensures aside { holder_of (caller_in args.now) ≢ 0 → staged.new ≡ staged.old }
    ensures files { IsOnFiles store.new (D.view files.new) }
    ensures staged { IsOnStaged store.new (T.view staged.new) }
    ensures names { names_of store.new ≡ names_of store.old }
    ensures images { StopLeaves store.old (D.view files.old) (D.view files.new)
        (spec.Leads sessions.old method.now args.now now store.old) }
    ensures done { spec.Answers sessions.old method.now args.now now store.old store.new result }
    ensures alone { CallLeavesAlone (method_of method.now)
        (files.new ≡ files.old) (staged.new ≡ staged.old) }
    ensures untouched { IfErr result
        (UnlessFailed ((files.new ≡ files.old) × (staged.new ≡ staged.old))) }
    ensures cause { HasDiskCause result (has_failed store.new) (D.view files.old) (D.view files.new)
        (T.view staged.old) (T.view staged.new) }
{
    let caller = Caller::of(args);
    let admitted = admit(sessions, caller, now);
    let Some(method) = Method::of(method) else {
        return Err(RpcError::Status(NO_METHOD));
    };
    if !admitted {
        return Err(RpcError::Status(NOT_FOUND));
    }
    let Ok(lacking) = missing(alloc, sessions, store, method, caller, args, now) else {
        return Err(RpcError::Memory);
    };
    if let Some(grant) = lacking {
        return Err(RpcError::Denied(grant));
    }
    carry_out(
        alloc, sessions, store, files, staged, method, caller, args, now,
    )
}

/// Renews the session of the caller where it is live, and answers whether the caller may call.
fn admit(sessions: &mut Sessions, caller: Caller, now: u64) -> bool
    ensures renewed { sessions.new ≡ renewed caller now sessions.old }
    ensures number { sessions.new.next ≡ sessions.old.next }
    ensures admitted { result ≡ is_admitted caller now sessions.old }
{
    match caller {
        Caller::Anyone => true,
        Caller::Stranger => false,
        Caller::Session(id) => match sessions.used(id, now) {
            Ok(()) => true,
            Err(_) => false,
        },
    }
}

/// The first grant that the method needs and the caller does not have.
fn missing(
    alloc: Global,
    sessions: &Sessions,
    store: &Store,
    method: Method,
    caller: Caller,
    args: &[Attr],
    now: u64,
) -> Result<Option<Grant>, Memory>
    requires { IsStore store.now }
    ensures { IfOk result (λ grant. grant
        ≡ missing_of method (call_by sessions.now caller args.now now) store.now) }
{
    let holder = caller.holder();
    let waiting = waiting_in(store);
    let staged = staged_for(alloc, store, method, holder)?;
    let grants = needed(alloc, method, caller, args, staged.as_slice(), waiting)?;
    Ok(first_missing(sessions, holder, waiting, now, grants))
}

/// The holder of the apply that waits.
fn waiting_in(store: &Store) -> Option<u128>
    ensures { result ≡ waiting_of store.now }
{
    match store.pending() {
        Some(pending) => Some(pending.holder),
        None => None,
    }
}

/// The packages of which the holder has staged something, where the method needs a grant for each.
fn staged_for(
    alloc: Global,
    store: &Store,
    method: Method,
    holder: u128,
) -> Result<Vec<Text>, Memory>
    requires { IsStore store.now }
    ensures { IfOk result (λ names.
        method ≡ Method.Apply → names.items ≡ names_staged holder store.now) }
{
    match method {
        Method::Apply => staged_names(alloc, store, holder),
        _ => Ok(Vec::new(alloc)),
    }
}

/// Carries out a method for which no grant is missing.
fn carry_out<D: Disk, T: Disk>(
    alloc: Global,
    sessions: &Sessions,
    store: &mut Store,
    files: &mut D,
    staged: &mut T,
    method: Method,
    caller: Caller,
    args: &[Attr],
    now: u64,
) -> Result<Reply, RpcError>
    requires files { IsOnFiles store.old (D.view files.old) }
    requires staged { IsOnStaged store.old (T.view staged.old) }
    requires ready { has_failed store.old ≡ false }
    requires granted { missing_of method (call_by sessions.now caller args.now now) store.old
        ≡ None }
    ensures same { SameDisk (D.view files.old) (D.view files.new) }
    ensures follows { Follows (T.view staged.old) (T.view staged.new) }
    ensures aside { holder_of caller ≢ 0 → staged.new ≡ staged.old }
    ensures files { IsOnFiles store.new (D.view files.new) }
    ensures staged { IsOnStaged store.new (T.view staged.new) }
    ensures names { names_of store.new ≡ names_of store.old }
    ensures images { StopLeaves store.old (D.view files.old) (D.view files.new)
        (spec.MethodLeads method (call_by sessions.now caller args.now now) store.old) }
    ensures done { spec.MethodDone method (call_by sessions.now caller args.now now)
        store.old store.new result }
    ensures alone { LeavesAlone method
        (files.new ≡ files.old) (staged.new ≡ staged.old) }
    ensures untouched { IfErr result
        (UnlessFailed ((files.new ≡ files.old) × (staged.new ≡ staged.old))) }
    ensures cause { HasDiskCause result (has_failed store.new) (D.view files.old) (D.view files.new)
        (T.view staged.old) (T.view staged.new) }
{
    let holder = caller.holder();
    match method {
        Method::Ask(question) => ask(alloc, sessions, store, question, caller, args, now),
        Method::Stage(edit) => stage_edit(alloc, store, staged, edit, caller, args),
        Method::Revert => revert(alloc, store, staged, holder, args),
        Method::Commit => commit(alloc, store, files, staged, holder, args),
        Method::Apply => apply(alloc, store, files, staged, holder, args, now),
        Method::Confirm => confirm(alloc, store, files, holder),
        Method::Rollback => rollback(alloc, store, files, holder),
    }
}
