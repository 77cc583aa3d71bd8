ghost use Rattle.std.specs.Prelude.{◌≡◌, ◌≢◌, ◌≤◌, ◌<◌, ◌^◌, ◌+◌, codes, Err, IfOk, OnOk, OnErr};
ghost use Rattle.std.specs.Prelude.{IsErr};
ghost use Rattle.uci_store.specs.Store.{staged_in};
ghost use Rattle.rpc_objects.specs.SessionCall as spec;

use crate::local_answer::LocalAnswer;
use blob_codec::Attr;
use plane_io::{Memory, Text};
use rpc_session::{Grant, SessionError, Sessions, session_named};
use sqlite_items::Items;
use std::alloc::Global;
use uci_store::Store;

/// What the object `session` answers to a call.
#[derive(Drop)]
pub struct SessionAnswer {
    pub answer: LocalAnswer,
    /// Whether the call has made a session, and so used its random word up.
    pub has_created: bool,
}

/// Carries a call of the object `session` out. A session that it destroys goes with what it has
/// staged.
///
/// # Errors
///
/// Want of memory. The call may have been carried out, but none that destroys a session.
pub fn answer_session(
    alloc: Global,
    sessions: &mut Sessions,
    store: &mut Store,
    method: &[u8],
    args: &[Attr],
    now: u64,
    word: u64,
) -> Result<SessionAnswer, Memory>
    requires { method.now ≡ codes "create" → sessions.old.next < 2 ^ 63 }
    ensures done { IfOk result (spec.HasAnswered
        (spec.session_call method.now args.now now word sessions.old (staged_in store.old))
        sessions.new (staged_in store.new)) }
    ensures number { sessions.new.next ≤ sessions.old.next + 1 }
    ensures kept { OnErr result (staged_in store.new ≡ staged_in store.old) }
    ensures stays { spec.StaysOpen store.old store.new }
{
    let told = sessions.serve(method, args, now, word);
    let has_created = has_created(method, &told);
    end_session(store, ended_by(method, args, &told));
    Ok(SessionAnswer {
        answer: tell(alloc, told)?,
        has_created,
    })
}

/// Whether a call has made a session.
fn has_created(method: &[u8], told: &Result<Items<Attr>, SessionError>) -> bool
    ensures { result ≡ spec.has_created method.now told.now }
{
    method == b"create".as_slice() && told.is_ok()
}

/// The session that a call has destroyed.
fn ended_by(method: &[u8], args: &[Attr], told: &Result<Items<Attr>, SessionError>) -> Option<u128>
    ensures { result ≡ spec.ended_by method.now args.now told.now }
{
    if method == b"destroy".as_slice() && told.is_ok() {
        session_named(args)
    } else {
        None
    }
}

/// Drops what a session has staged that has ended. The default one never does.
fn end_session(store: &mut Store, ended: Option<u128>)
    ensures staged { staged_in store.new ≡ spec.staged_without ended (staged_in store.old) }
    ensures stays { spec.StaysOpen store.old store.new }
{
    match ended {
        Some(session) if session != 0 => store.forget(session),
        _ => {}
    }
}

/// What the call answers.
fn tell(alloc: Global, told: Result<Items<Attr>, SessionError>) -> Result<LocalAnswer, Memory>
    ensures answer { IfOk result (λ answer. answer ≡ spec.answer_of told) }
    ensures given { OnOk result (told ≢ Err SessionError.Memory) }
    ensures refused { OnErr result (IsErr told) }
{
    match told {
        Ok(payload) => Ok(LocalAnswer::told(payload)),
        Err(SessionError::NoMethod) => Ok(LocalAnswer::refused(3)),
        Err(SessionError::Argument) => Ok(LocalAnswer::refused(2)),
        Err(SessionError::NoSession) => Ok(LocalAnswer::refused(4)),
        Err(SessionError::Full) => Ok(LocalAnswer::refused(9)),
        Err(SessionError::DefaultSession) => LocalAnswer::denied(alloc, &destroying(alloc)?),
        Err(SessionError::Memory) => Err(Memory),
    }
}

/// The grant that nobody has: to destroy the default session.
fn destroying(alloc: Global) -> Result<Grant, Memory>
    ensures { IfOk result (λ grant. grant ≡ spec.destroying) }
{
    Ok(Grant {
        scope: Text::from_bytes(alloc, b"ubus")?,
        object: Text::from_bytes(alloc, b"session")?,
        function: Text::from_bytes(alloc, b"destroy")?,
    })
}
