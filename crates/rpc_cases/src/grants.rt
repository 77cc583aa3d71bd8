use crate::bench::Bench;
use rpc_session::{Denied, Grant, SessionError, Sessions};
use std::alloc::Global;

/// The random word of a session, where none is told.
pub(crate) const WORD: u64 = 0xab;

/// The id of a session that is told as `NUMBER` or as `NUMBER.WORD`. That of the default session is
/// 0.
pub(crate) fn id_of(text: &str) -> anyhow::Result<u128> {
    let (number, word) = match text.split_once('.') {
        Some((number, word)) => (number, word.parse::<u64>()?),
        None => (text, WORD),
    };
    let number = number.parse::<u64>()?;
    if number == 0 {
        return Ok(0);
    }
    Ok(
        u128::from(number)
            .saturating_mul(1 << 64)
            .saturating_add(u128::from(word)),
    )
}

/// Puts a session as `session NUMBER.WORD`.
fn put_id(alloc: Global, id: u128, out: &mut Vec<u8>) -> anyhow::Result<()> {
    let number = u64::try_from(id >> 64)?;
    let word = u64::try_from(id & u128::from(u64::MAX))?;
    let told = format!(in alloc; "session {number}.{word}\n")?;
    out.extend_from_slice(told.as_bytes())?;
    Ok(())
}

/// Puts `ok`, or why a call of the sessions was refused.
fn put_done(
    alloc: Global,
    done: Result<(), SessionError>,
    out: &mut Vec<u8>,
) -> anyhow::Result<()> {
    match done {
        Ok(()) => out.extend_from_slice(b"ok\n")?,
        Err(SessionError::Memory) => return Err(SessionError::Memory.into()),
        Err(error) => {
            let told = format!(in alloc; "error {} {error}\n", error.number())?;
            out.extend_from_slice(told.as_bytes())?;
        }
    }
    Ok(())
}

fn put_denial(alloc: Global, denial: Result<(), Denied>, out: &mut Vec<u8>) -> anyhow::Result<()> {
    match denial {
        Ok(()) => out.extend_from_slice(b"ok\n")?,
        Err(error) => {
            let told = format!(in alloc; "error {} {error}\n", error.number())?;
            out.extend_from_slice(told.as_bytes())?;
        }
    }
    Ok(())
}

fn grant_of(alloc: Global, words: &[&str; 3]) -> anyhow::Result<Grant> {
    let [scope, object, function] = words;
    Ok(Grant::of(
        alloc,
        scope.as_bytes(),
        object.as_bytes(),
        function.as_bytes(),
    )?)
}

impl Bench {
    /// Makes a session.
    pub(crate) fn create(
        &mut self,
        timeout: &str,
        now: &str,
        word: &str,
        out: &mut Vec<u8>,
    ) -> anyhow::Result<()> {
        let made = create(
            &mut self.sessions,
            timeout.parse()?,
            now.parse()?,
            word.parse()?,
        );
        match made {
            Ok(id) => put_id(self.alloc, id, out),
            Err(error) => put_done(self.alloc, Err(error), out),
        }
    }

    /// Gives or takes a grant of a session.
    pub(crate) fn grant(
        &mut self,
        gives: bool,
        id: &str,
        words: &[&str; 3],
        out: &mut Vec<u8>,
    ) -> anyhow::Result<()> {
        let grant = grant_of(self.alloc, words)?;
        let done = if gives {
            self.sessions.grant(id_of(id)?, &grant)
        } else {
            self.sessions.revoke(id_of(id)?, &grant)
        };
        put_done(self.alloc, done, out)
    }

    /// Whether a session may do what the words ask for.
    pub(crate) fn allowed(
        &self,
        id: &str,
        words: &[&str; 3],
        now: &str,
        out: &mut Vec<u8>,
    ) -> anyhow::Result<()> {
        let wanted = grant_of(self.alloc, words)?;
        let denial = self.sessions.allowed(id_of(id)?, &wanted, now.parse()?);
        put_denial(self.alloc, denial, out)
    }

    /// A session is used.
    pub(crate) fn used(&mut self, id: &str, now: &str, out: &mut Vec<u8>) -> anyhow::Result<()> {
        let done = self.sessions.used(id_of(id)?, now.parse()?);
        put_done(self.alloc, done, out)
    }

    /// A session ends.
    pub(crate) fn destroy(&mut self, id: &str, out: &mut Vec<u8>) -> anyhow::Result<()> {
        let done = self.sessions.destroy(id_of(id)?);
        put_done(self.alloc, done, out)
    }

    /// The first session that has expired.
    pub(crate) fn expired(&self, now: &str, out: &mut Vec<u8>) -> anyhow::Result<()> {
        match self.sessions.next_expired(now.parse()?) {
            Some(id) => put_id(self.alloc, id, out),
            None => {
                out.extend_from_slice(b"none\n")?;
                Ok(())
            }
        }
    }
}

fn create(
    sessions: &mut Sessions,
    timeout: u32,
    now: u64,
    word: u64,
) -> Result<u128, SessionError> {
    if sessions.next_number() >= 1 << 63 {
        return Err(SessionError::Full);
    }
    sessions.create(timeout, now, word)
}

/// Whether the grant permits what is wanted.
pub(crate) fn permits(
    alloc: Global,
    grant: &[&str; 3],
    wanted: &[&str; 3],
    out: &mut Vec<u8>,
) -> anyhow::Result<()> {
    let may = grant_of(alloc, grant)?.permits(&grant_of(alloc, wanted)?);
    let answer: &[u8] = if may { b"yes\n" } else { b"no\n" };
    out.extend_from_slice(answer)?;
    Ok(())
}
