//! Questions, which change nothing.
ghost use Rattle.std.specs.Prelude.{◌≡◌, Ok, Err, IfOk, IfErr, map, filter};
ghost use Rattle.uci_store.specs.Store.{names_of, IsStore};
ghost use Rattle.rpc_rules.specs.Status.{IsStatusOf};
ghost use Rattle.rpc_rules.specs.Arguments.{holder_of};
ghost use Rattle.rpc_uci.specs.Call.{call_by};
ghost use Rattle.rpc_uci.specs.Outcome as spec;
ghost use Rattle.rpc_uci.specs.Done.{IsStatusFor, AskAnswers};

use crate::refused::{BAD_ARGUMENT, NOT_FOUND};
use crate::reply::Reply;
use crate::seeing::{are_some, deltas_named, has_staged, see_named};
use blob_codec::Attr;
use plane_io::Memory;
use rpc_rules::{
    Caller, Question, RpcError, changes_told, config_in, configs_told, get_told, may_read,
    package_changes, question_fits,
};
use rpc_session::Sessions;
use sqlite_items::Items;
use std::alloc::Global;
use uci_delta::Delta;
use uci_store::{Store, StoreError};

/// Answers a question.
pub(crate) fn ask(
    alloc: Global,
    sessions: &Sessions,
    store: &Store,
    question: Question,
    caller: Caller,
    args: &[Attr],
    now: u64,
) -> Result<Reply, RpcError>
    requires { IsStore store.now }
    ensures { AskAnswers question store.now (call_by sessions.now caller args.now now) result }
{
    match question {
        Question::Configs => Ok(Reply::quiet(configs_told(alloc, store.packages())?)),
        Question::Get => match get(alloc, store, caller.holder(), args) {
            Ok(told) => Ok(Reply::quiet(told)),
            Err(error) => Err(error),
        },
        Question::Changes => match changes(alloc, sessions, store, caller, args, now) {
            Ok(told) => Ok(Reply::quiet(told)),
            Err(error) => Err(error),
        },
    }
}

/// The package, the section or the option that is named.
#[tactic(auto, using(crate::proofs::SightLemmas::sight_of))]
fn get(alloc: Global, store: &Store, holder: u128, args: &[Attr]) -> Result<Items<Attr>, RpcError>
    requires { IsStore store.now }
    ensures told { IfOk result (λ told. spec.GetComesTo store.now holder args.now (Ok told)) }
    ensures refused { IfErr result (IsStatusFor (λ status.
        spec.GetComesTo store.now holder args.now (Err status))) }
{
    let fits = question_fits(Question::Get, args);
    let view = match see_named(alloc, store, holder, fits, args) {
        Ok(view) => view,
        Err(error) => return Err(error),
    };
    match get_told(alloc, args, &view) {
        Ok(told) => Ok(told),
        Err(error) => Err(error),
    }
}

/// What is staged of the package that is named, or of all that may be read. One of which nothing is
/// staged is left out.
fn changes(
    alloc: Global,
    sessions: &Sessions,
    store: &Store,
    caller: Caller,
    args: &[Attr],
    now: u64,
) -> Result<Items<Attr>, RpcError>
    requires { IsStore store.now }
    ensures told { IfOk result (λ told.
        spec.changes_outcome store.now (call_by sessions.now caller args.now now) ≡ Ok told) }
    ensures refused { IfErr result (IsStatusOf
        (spec.changes_outcome store.now (call_by sessions.now caller args.now now))) }
{
    if !question_fits(Question::Changes, args) {
        return Err(RpcError::Status(BAD_ARGUMENT));
    }
    let Some(name) = config_in(args) else {
        let packages = readable_changes(alloc, sessions, store, caller, now)?;
        return Ok(changes_told(alloc, packages)?);
    };
    let deltas = match store.changes(alloc, caller.holder(), name) {
        Ok(deltas) => deltas,
        Err(StoreError::NoPackage) => return Err(RpcError::Status(NOT_FOUND)),
        Err(_) => return Err(RpcError::Memory),
    };
    let packages = package_told(alloc, name, deltas.as_slice())?;
    Ok(changes_told(alloc, packages)?)
}

/// A package with its changes, where there are some.
fn package_told(alloc: Global, name: &[u8], deltas: &[Delta]) -> Result<Items<Attr>, Memory>
    ensures { IfOk result (λ told. told ≡ spec.package_told name.now deltas.now) }
{
    let mut told = Items::new(alloc);
    if are_some(deltas) {
        told.push(package_changes(alloc, name, deltas)?)?;
    }
    Ok(told)
}

/// What is staged of each package that the caller may read.
fn readable_changes(
    alloc: Global,
    sessions: &Sessions,
    store: &Store,
    caller: Caller,
    now: u64,
) -> Result<Items<Attr>, Memory>
    requires { IsStore store.now }
    ensures { IfOk result (λ packages. packages
        ≡ map (spec.changes_of store.now (holder_of caller))
        (filter (spec.is_told store.now sessions.now caller now) (names_of store.now))) }
{
    let holder = caller.holder();
    let names = store.packages();
    let mut told = Items::new(alloc);
    for name in names {
        if is_told(alloc, sessions, store, caller, now, name.as_bytes())? {
            told.push(changes_of(alloc, store, holder, name.as_bytes())?)?;
        }
    }
    Ok(told)
}

/// Whether something of the package is staged, and the caller may read it.
fn is_told(
    alloc: Global,
    sessions: &Sessions,
    store: &Store,
    caller: Caller,
    now: u64,
    name: &[u8],
) -> Result<bool, Memory>
    requires { IsStore store.now }
    ensures { IfOk result (λ told.
        told ≡ spec.is_told store.now sessions.now caller now name.now) }
{
    if !has_staged(alloc, store, caller.holder(), name)? {
        return Ok(false);
    }
    may_read(alloc, sessions, caller, now, name)
}

/// What the holder has staged of the package of that name.
fn changes_of(alloc: Global, store: &Store, holder: u128, name: &[u8]) -> Result<Attr, Memory>
    requires { IsStore store.now }
    ensures { IfOk result (λ told. told ≡ spec.changes_of store.now holder name.now) }
{
    let deltas = deltas_named(alloc, store, holder, name)?;
    package_changes(alloc, name, deltas.as_slice())
}
