ghost use Rattle.std.specs.Prelude.{◌≡◌, ◌≢◌, ◌<◌, ◌≤◌, ◌+◌, ◌^◌, Err, IfOk, IfErr, None};
ghost use Rattle.rpc_session.specs.SessionList.{IsAt, RiseById};
ghost use Rattle.rpc_session.specs.Sessions as spec;

use crate::{Denied, Grant, Session, SessionError};
use plane_io::{Items, Memory, Text};
use std::alloc::Global;
use std::marker::Model;

/// How many sessions there may be, the default one counted.
pub const MOST_SESSIONS: usize = 1024;

/// The sessions. The default one has the id 0, and is always there.
///
/// The others have as id their number, from 1 on, times 2^64, and a random word. A session is found
/// by a binary search.
#[derive(Drop)]
pub struct Sessions {
    pub(crate) rows: Vec<Session>,
    next: u64,
}

impl Model for Sessions {
    ghost use Rattle.std.specs.Coded.{codes};
    ghost use Rattle.blob_codec.specs.contracts.blob.Blob as blob;
    ghost use Rattle.rpc_session.specs.SessionList.{SessionList, AreInOrder};

    ghost Value = { SessionList };

    ghost coded = { Prim.hlevel (codes, blob.the_row.coded) };

    ghost view = { λ sessions. record { sessions = sessions.rows.items; next = sessions.next } };

    ghost invariant = { λ sessions. AreInOrder sessions.rows.items sessions.next };
}

impl Sessions {
    /// The default session alone. It may ask `access` of the object `session`, and `login`.
    pub fn new(alloc: Global) -> Result<Sessions, Memory>
        ensures { IfOk result (λ sessions. sessions ≡ spec.start) }
    {
        let mut grants = Items::new(alloc);
        grants.push(default_grant(alloc, b"access")?)?;
        grants.push(default_grant(alloc, b"login")?)?;
        let session = Session {
            id: 0,
            timeout: 0,
            last_use: 0,
            grants,
            values: sqlite_items::Items::new(alloc),
        };
        let mut rows = Vec::new(alloc);
        rows.push(session)?;
        Ok(Sessions { rows, next: 1 })
    }

    /// Makes a session, used now, without grants and data, and gives its id. A timeout of 0 is
    /// none.
    ///
    /// # Errors
    ///
    /// `Full` where there are 1,024 sessions, `Memory` where there was not enough memory. The
    /// sessions stay as they were.
    pub fn create(&mut self, timeout: u32, now: u64, word: u64) -> Result<u128, SessionError>
        requires { self.old.next < 2 ^ 63 }
        ensures id { IfOk result (λ id. id ≡ spec.id_of self.old.next word) }
        ensures made { result ≢ Err SessionError.Memory →
            spec.Does (spec.created timeout now word self.old) result self.old self.new }
        ensures memory { result ≡ Err SessionError.Memory → self.new ≡ self.old }
        ensures number { self.new.next ≤ self.old.next + 1 }
    {
        if self.rows.len() >= MOST_SESSIONS {
            return Err(SessionError::Full);
        }
        let alloc = *self.rows.allocator();
        let id = self.next_id(word);
        self.rows.push(Session::fresh(alloc, id, timeout, now))?;
        self.next += 1;
        Ok(id)
    }

    /// The number that the next session gets. Where one is made, it is to be below 2^63.
    pub fn next_number(&self) -> u64
        ensures { result ≡ self.now.next }
    {
        self.next
    }

    /// The id that the next session gets with this random word.
    pub(crate) fn next_id(&self, word: u64) -> u128
        ensures { result ≡ spec.id_of self.now.next word }
    {
        (u128::from(self.next) << 64) + u128::from(word)
    }

    /// Takes a session out, also an expired one. It takes no memory.
    ///
    /// # Errors
    ///
    /// `DefaultSession` for the id 0, and `NoSession` where there is no such session. The sessions
    /// stay as they were.
    pub fn destroy(&mut self, sid: u128) -> Result<(), SessionError>
        ensures done { spec.Does (spec.destroyed sid self.old) result self.old self.new }
        ensures number { self.new.next ≡ self.old.next }
    {
        if sid == 0 {
            return Err(SessionError::DefaultSession);
        }
        let Ok(place) = search(&self.rows, sid) else {
            return Err(SessionError::NoSession);
        };
        drop(self.rows.remove(place));
        Ok(())
    }

    /// Adds a grant to a session, also to an expired one, where it does not have it.
    ///
    /// # Errors
    ///
    /// `NoSession` where there is no such session, `Memory` where there was not enough memory. The
    /// sessions stay as they were.
    pub fn grant(&mut self, sid: u128, grant: &Grant) -> Result<(), SessionError>
        ensures made { result ≢ Err SessionError.Memory →
            spec.Does (spec.granted sid grant.now self.old) result self.old self.new }
        ensures memory { result ≡ Err SessionError.Memory → self.new ≡ self.old }
        ensures number { self.new.next ≡ self.old.next }
    {
        let Ok(place) = search(&self.rows, sid) else {
            return Err(SessionError::NoSession);
        };
        self.rows[place].add(grant)?;
        Ok(())
    }

    /// Takes a grant from a session, also from an expired one, where it has it. It takes no memory.
    ///
    /// # Errors
    ///
    /// `NoSession` where there is no such session. The sessions stay as they were.
    pub fn revoke(&mut self, sid: u128, grant: &Grant) -> Result<(), SessionError>
        ensures done { spec.Does (spec.revoked sid grant.now self.old) result self.old self.new }
        ensures number { self.new.next ≡ self.old.next }
    {
        let alloc = *self.rows.allocator();
        let Ok(place) = search(&self.rows, sid) else {
            return Err(SessionError::NoSession);
        };
        self.rows[place].take_out(alloc, grant);
        Ok(())
    }

    /// Whether a live session may do what is wanted. It takes no memory.
    ///
    /// # Errors
    ///
    /// `NoSession` where no live session has the id, and `Missing` where none of its grants permits
    /// it.
    pub fn allowed(&self, sid: u128, wanted: &Grant, now: u64) -> Result<(), Denied>
        ensures { spec.IsDenialOf (spec.denial sid wanted.now now self.now) result }
    {
        let Ok(place) = search(&self.rows, sid) else {
            return Err(Denied::NoSession);
        };
        let session = &self.rows[place];
        if !session.is_live(now) {
            return Err(Denied::NoSession);
        }
        if session.may(wanted) {
            Ok(())
        } else {
            Err(Denied::Missing)
        }
    }

    /// Renews a live session: it was used now. It takes no memory.
    ///
    /// # Errors
    ///
    /// `NoSession` where no live session has the id. The sessions stay as they were.
    pub fn used(&mut self, sid: u128, now: u64) -> Result<(), SessionError>
        ensures done { spec.Does (spec.used sid now self.old) result self.old self.new }
        ensures number { self.new.next ≡ self.old.next }
    {
        let Ok(place) = search(&self.rows, sid) else {
            return Err(SessionError::NoSession);
        };
        let session = &mut self.rows[place];
        if !session.is_live(now) {
            return Err(SessionError::NoSession);
        }
        session.last_use = now;
        Ok(())
    }

    /// The id of the first session that is not live. It takes no memory.
    pub fn next_expired(&self, now: u64) -> Option<u128>
        ensures { result ≡ spec.first_expired now self.now.sessions }
    {
        for session in &self.rows {
            if !session.is_live(now) {
                return Some(session.id);
            }
        }
        None
    }
}

/// The place of a session, or where it would stand.
pub(crate) fn search(rows: &[Session], sid: u128) -> Result<usize, usize>
    requires { RiseById rows.now }
    ensures found { IfOk result (IsAt rows.now sid) }
    ensures absent { IfErr result (λ gap. spec.session_of sid rows.now ≡ None) }
{
    rows.binary_search_by_key(&sid, |session| session.id)
}

fn default_grant(alloc: Global, function: &[u8]) -> Result<Grant, Memory>
    ensures { IfOk result (λ grant. grant ≡ spec.default_grant function.now) }
{
    Ok(Grant {
        scope: Text::from_bytes(alloc, b"ubus")?,
        object: Text::from_bytes(alloc, b"session")?,
        function: Text::from_bytes(alloc, function)?,
    })
}
