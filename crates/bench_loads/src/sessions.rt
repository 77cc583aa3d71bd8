//! `sessions SESSIONS PICKED TIMES`: makes so many sessions of 20 grants each, and picks so many of
//! them, spread evenly. Of one after the other it asks whether it may do what its last grant
//! permits, and gives how often it may.
use plane_io::Memory;
use rpc_session::{Grant, SessionError, Sessions};
use std::alloc::Global;

/// How many grants a session has.
const GRANTS: u8 = 20;

/// How many sessions are made, how many of them are asked, and how often.
#[derive(Clone, Copy)]
struct Work {
    count: u64,
    picked: u64,
    times: u32,
}

fn grant_of(alloc: Global, number: u8) -> Result<Grant, Memory> {
    let object = [b'a', b'a' + number % 26, b'.', b'*'];
    Grant::of(alloc, b"uci", &object, b"read")
}

/// The sessions, and the ids of those that are asked.
fn filled(alloc: Global, work: Work) -> Result<(Sessions, Vec<u128>), SessionError> {
    let mut sessions = Sessions::new(alloc)?;
    let mut ids = Vec::new(alloc);
    let step = work.count / work.picked.max(1);
    for word in 0..work.count {
        if sessions.next_number() >= 1 << 63 {
            return Err(SessionError::Full);
        }
        let sid = sessions.create(300, 0, word)?;
        for number in 0..GRANTS {
            sessions.grant(sid, &grant_of(alloc, number)?)?;
        }
        if word % step.max(1) == 0 && (ids.len() as u64) < work.picked {
            ids.push(sid)?;
        }
    }
    Ok((sessions, ids))
}

/// How often the sessions may do what their last grants permit.
fn ask_often(alloc: Global, sessions: &Sessions, ids: &[u128], times: u32) -> Result<u32, Memory> {
    let wanted = grant_of(alloc, GRANTS - 1)?;
    let count = ids.len().max(1);
    let mut permitted: u32 = 0;
    for turn in 0..times {
        let Some(sid) = ids.get(turn as usize % count) else {
            return Ok(0);
        };
        if sessions.allowed(*sid, &wanted, 0).is_ok() {
            permitted = permitted.saturating_add(1);
        }
    }
    Ok(permitted)
}

fn permitted(alloc: Global, work: Work) -> Result<u32, SessionError> {
    let (sessions, ids) = filled(alloc, work)?;
    Ok(ask_often(alloc, &sessions, ids.as_slice(), work.times)?)
}

/// Carries these words out.
pub(crate) fn run(alloc: Global, words: &[&str]) -> anyhow::Result<Option<String>> {
    let [count, picked, times] = words else {
        return Ok(None);
    };
    let work = Work {
        count: count.parse()?,
        picked: picked.parse()?,
        times: times.parse()?,
    };
    let count = permitted(alloc, work)?;
    Ok(Some(format!(in alloc; "{count}")?))
}
