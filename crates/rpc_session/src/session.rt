ghost use Rattle.std.specs.Prelude.{◌≡◌, OnOk, OnErr};
ghost use Rattle.rpc_session.specs.Session as spec;

use crate::Grant;
use crate::grant::holds;
use blob_codec::Attr;
use plane_io::{Items, Memory};
use std::alloc::Global;
use std::mem;

/// A session: who uses the message bus.
#[derive(Drop)]
pub struct Session {
    pub id: u128,
    /// How many seconds without a use end it; 0 is never.
    pub timeout: u32,
    /// The second of the last use.
    pub last_use: u64,
    /// What it may do, each grant once.
    pub grants: Items<Grant>,
    /// What its user keeps in it, by name.
    pub values: sqlite_items::Items<Attr>,
}

impl Session {
    /// A new session, used now.
    pub(crate) fn fresh(alloc: Global, id: u128, timeout: u32, now: u64) -> Session
        ensures { result ≡ spec.new_session id timeout now }
    {
        Session {
            id,
            timeout,
            last_use: now,
            grants: Items::new(alloc),
            values: sqlite_items::Items::new(alloc),
        }
    }

    /// Whether the session is live at this second.
    pub fn is_live(&self, now: u64) -> bool
        ensures { result ≡ spec.is_live now self.now }
    {
        self.timeout == 0 || now.saturating_sub(self.last_use) < u64::from(self.timeout)
    }

    /// Whether one of its grants permits what is wanted.
    pub fn may(&self, wanted: &Grant) -> bool
        ensures { result ≡ spec.may wanted.now self.now }
    {
        self.grants
            .as_slice()
            .iter()
            .any(|grant| grant.permits(wanted))
    }

    /// Adds the grant at the end, where the session does not have it.
    pub(crate) fn add(&mut self, grant: &Grant) -> Result<(), Memory>
        ensures ok { OnOk result (self.new ≡ spec.with_grant grant.now self.old) }
        ensures err { OnErr result (self.new ≡ self.old) }
    {
        if !holds(self.grants.as_slice(), grant) {
            self.grants.push(grant.copy()?)?;
        }
        Ok(())
    }

    /// Takes the grant out, without taking memory.
    pub(crate) fn take_out(&mut self, alloc: Global, grant: &Grant)
        ensures { self.new ≡ spec.without_grant grant.now self.old }
    {
        let mut grants = mem::replace(&mut self.grants, Items::new(alloc)).into_vec();
        grants.retain(|held| !held.same(grant));
        self.grants = Items::from_vec(grants);
    }

    /// The seconds that are left without a use: 0 where there is no timeout.
    pub(crate) fn seconds_left(&self, now: u64) -> u32
        ensures { result ≡ spec.seconds_left now self.now }
    {
        let idle = now.saturating_sub(self.last_use);
        if idle >= u64::from(self.timeout) {
            return 0;
        }
        self.timeout - idle as u32
    }
}
