ghost use Rattle.std.specs.Prelude.{◌≡◌, ◌++◌, IfOk, OnOk, map};
ghost use Rattle.rpc_session.specs.Grant.{same_grant};
ghost use Rattle.rpc_rules.specs.Arguments.{config_in as config_of};
ghost use Rattle.rpc_rules.specs.Grants as spec;

use crate::arguments::config_in;
use crate::caller::Caller;
use crate::method::{Method, Question};
use blob_codec::Attr;
use plane_io::{Memory, Text};
use rpc_session::{Grant, Sessions};
use std::alloc::Global;

/// The grants that a call needs, in the order in which they are asked. `staged` are the names of
/// the packages of which the caller has staged something, and `waiting` is the holder of the apply
/// that waits.
pub fn needed(
    alloc: Global,
    method: Method,
    caller: Caller,
    args: &[Attr],
    staged: &[Text],
    waiting: Option<u128>,
) -> Result<Vec<Grant>, Memory>
    ensures { IfOk result (λ grants.
        grants.items ≡ spec.needed method caller args.now staged.now waiting) }
{
    match method {
        Method::Ask(Question::Configs) => Ok(Vec::new(alloc)),
        Method::Ask(Question::Get | Question::Changes) => of_package(alloc, caller, args, b"read"),
        Method::Stage(_) | Method::Revert => of_package(alloc, caller, args, b"write"),
        Method::Commit => {
            let mut grants = of_package(alloc, caller, args, b"write")?;
            add_waiting(alloc, &mut grants, waiting, b"commit")?;
            Ok(grants)
        }
        Method::Apply => {
            let mut grants = of_staged(alloc, caller, staged)?;
            add_waiting(alloc, &mut grants, waiting, b"apply")?;
            Ok(grants)
        }
        Method::Confirm => of_waiting(alloc, waiting, b"confirm"),
        Method::Rollback => of_waiting(alloc, waiting, b"rollback"),
    }
}

/// The grant to use the package that the arguments name, where there is one and a session is named.
fn of_package(
    alloc: Global,
    caller: Caller,
    args: &[Attr],
    function: &[u8],
) -> Result<Vec<Grant>, Memory>
    ensures { IfOk result (λ grants. grants.items
        ≡ spec.of_session caller
        (spec.of_package (spec.to_use function.now) (config_of args.now))) }
{
    let mut grants = Vec::new(alloc);
    let Caller::Session(_) = caller else {
        return Ok(grants);
    };
    if let Some(name) = config_in(args) {
        grants.push(Grant::of(alloc, b"uci", name, function)?)?;
    }
    Ok(grants)
}

/// The grants to write these packages, where a session is named.
fn of_staged(alloc: Global, caller: Caller, staged: &[Text]) -> Result<Vec<Grant>, Memory>
    ensures { IfOk result (λ grants. grants.items
        ≡ spec.of_session caller (map spec.to_write staged.now)) }
{
    let mut grants = Vec::new(alloc);
    let Caller::Session(_) = caller else {
        return Ok(grants);
    };
    for name in staged {
        grants.push(Grant::of(alloc, b"uci", name.as_bytes(), b"write")?)?;
    }
    Ok(grants)
}

fn of_waiting(alloc: Global, waiting: Option<u128>, method: &[u8]) -> Result<Vec<Grant>, Memory>
    ensures { IfOk result (λ grants. grants.items ≡ spec.while_waiting waiting method.now) }
{
    let mut grants = Vec::new(alloc);
    add_waiting(alloc, &mut grants, waiting, method)?;
    Ok(grants)
}

/// Adds the grant to call a method while an apply waits, where one does.
fn add_waiting(
    alloc: Global,
    grants: &mut Vec<Grant>,
    waiting: Option<u128>,
    method: &[u8],
) -> Result<(), Memory>
    ensures { OnOk result
        (grants.new.items ≡ grants.old.items ++ spec.while_waiting waiting method.now) }
{
    let Some(_) = waiting else {
        return Ok(());
    };
    grants.push(to_end(alloc, method)?)?;
    Ok(())
}

fn to_end(alloc: Global, method: &[u8]) -> Result<Grant, Memory>
    ensures { IfOk result (λ grant. grant ≡ spec.to_end method.now) }
{
    Grant::of(alloc, b"uci", b":apply", method)
}

/// The first of the grants that the holder does not have.
///
/// While an apply waits its holder has the grants to confirm it and to roll it back, and nobody
/// else has. Nobody has those to apply and to commit. Every other grant is one of the holder's
/// session.
pub fn first_missing(
    sessions: &Sessions,
    holder: u128,
    waiting: Option<u128>,
    now: u64,
    needed: Vec<Grant>,
) -> Option<Grant>
    ensures { result ≡ spec.first_missing sessions.now holder waiting now needed.items }
{
    for grant in needed {
        if !permitted(sessions, holder, waiting, now, &grant) {
            return Some(grant);
        }
    }
    None
}

fn permitted(
    sessions: &Sessions,
    holder: u128,
    waiting: Option<u128>,
    now: u64,
    grant: &Grant,
) -> bool
    ensures { result ≡ spec.permitted sessions.now holder waiting now grant.now }
{
    if is_to_end(grant, b"confirm") || is_to_end(grant, b"rollback") {
        return is_waiting_for(waiting, holder);
    }
    if is_to_end(grant, b"apply") || is_to_end(grant, b"commit") {
        return false;
    }
    is_allowed(sessions, holder, now, grant)
}

fn is_to_end(grant: &Grant, method: &[u8]) -> bool
    ensures { result ≡ same_grant grant.now (spec.to_end method.now) }
{
    grant.scope.as_bytes() == b"uci".as_slice()
        && grant.object.as_bytes() == b":apply".as_slice()
        && grant.function.as_bytes() == method
}

fn is_waiting_for(waiting: Option<u128>, holder: u128) -> bool
    ensures { result ≡ spec.is_waiting_for waiting holder }
{
    match waiting {
        Some(other) => other == holder,
        None => false,
    }
}

fn is_allowed(sessions: &Sessions, holder: u128, now: u64, grant: &Grant) -> bool
    ensures { result ≡ spec.is_allowed sessions.now holder now grant.now }
{
    match sessions.allowed(holder, grant, now) {
        Ok(()) => true,
        Err(_) => false,
    }
}

/// Whether the caller may read the package. Without a session it may.
pub fn may_read(
    alloc: Global,
    sessions: &Sessions,
    caller: Caller,
    now: u64,
    name: &[u8],
) -> Result<bool, Memory>
    ensures { IfOk result (λ may. may ≡ spec.may_read sessions.now caller now name.now) }
{
    match caller {
        Caller::Anyone => Ok(true),
        Caller::Stranger => Ok(false),
        Caller::Session(id) => {
            let grant = Grant::of(alloc, b"uci", name, b"read")?;
            Ok(is_allowed(sessions, id, now, &grant))
        }
    }
}
