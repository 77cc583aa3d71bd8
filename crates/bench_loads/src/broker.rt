//! `broker OBJECTS CLIENTS TIMES`: a bus with so many objects of so many clients, of which nine are
//! picked, spread evenly. One after the other is called by a client, and its owner answers by
//! STATUS. Given is how many answers came back to the callers.
use plane_io::{Memory, Text};
use std::alloc::Global;
use ubus_acl::Acl;
use ubus_broker::{Broker, BrokerError};
use ubus_frames::Frame;

const INVOKE: u8 = 5;

const STATUS: u8 = 1;

const ADD_OBJECT: u8 = 6;

const FIRST_NUMBER: u32 = 1025;

/// How many objects are called in turn.
const PICKED: u32 = 9;

/// How many objects and clients there are, and how many calls.
#[derive(Clone, Copy)]
struct Work {
    objects: u32,
    clients: u32,
    times: u32,
}

/// A call of a client, and the answer of the object's owner.
#[derive(Drop)]
struct Talk {
    caller: u32,
    call: Frame,
    owner: u32,
    answer: Frame,
}

/// The number of the client of a place.
fn client_at(work: Work, place: u32) -> u32 {
    FIRST_NUMBER.saturating_add(place % work.clients.max(1))
}

fn object_at(place: u32) -> u32 {
    FIRST_NUMBER.saturating_add(place)
}

/// A bus with its clients and their objects, one object of each client after the other.
fn filled(alloc: Global, work: Work) -> Result<Broker, BrokerError> {
    let Ok(acl) = Acl::read(alloc, b"[]") else {
        return Err(BrokerError::Memory);
    };
    let mut broker = Broker::new(alloc, acl)?;
    for _ in 0..work.clients {
        let _joined = broker.connect(b"root", b"root")?;
    }
    for place in 0..work.objects {
        let mut request = Frame::new(ADD_OBJECT, 1, 0);
        let path = place.to_string(alloc)?;
        request.path = Some(Text::from_bytes(alloc, path.as_bytes())?);
        let _served = broker.client_frame(client_at(work, place), &request)?;
    }
    Ok(broker)
}

/// A call of the object of a place, by the client behind its owner.
fn talk_at(alloc: Global, work: Work, place: u32) -> Result<Talk, Memory> {
    let caller = client_at(work, place.saturating_add(1));
    let mut call = Frame::new(INVOKE, 7, 0);
    call.id = Some(object_at(place));
    call.method = Some(Text::from_bytes(alloc, b"status")?);
    let mut answer = Frame::new(STATUS, 7, caller);
    answer.id = Some(object_at(place));
    answer.status = Some(0);
    Ok(Talk {
        caller,
        call,
        owner: client_at(work, place),
        answer,
    })
}

/// Calls of objects that are spread evenly.
fn talks(alloc: Global, work: Work) -> Result<Vec<Talk>, Memory> {
    let mut talks = Vec::new(alloc);
    let step = work.objects / PICKED;
    for pick in 0..PICKED {
        talks.push(talk_at(alloc, work, pick.saturating_mul(step))?)?;
    }
    Ok(talks)
}

/// One call and its answer: whether the answer came back to the caller.
fn is_answered(broker: &mut Broker, talk: &Talk) -> Result<bool, BrokerError> {
    let passed_on = broker.client_frame(talk.caller, &talk.call)?;
    let back = broker.client_frame(talk.owner, &talk.answer)?;
    let came = match back.out.as_slice() {
        [sent] => sent.client == talk.caller,
        _ => false,
    };
    Ok(came && passed_on.out.as_slice().len() == 1)
}

/// How many answers come back.
fn answered(alloc: Global, work: Work) -> Result<u32, BrokerError> {
    let mut broker = filled(alloc, work)?;
    let talks = talks(alloc, work)?;
    let count = talks.len().max(1);
    let mut came: u32 = 0;
    for turn in 0..work.times {
        let Some(talk) = talks.get(turn as usize % count) else {
            return Ok(0);
        };
        if is_answered(&mut broker, talk)? {
            came = came.saturating_add(1);
        }
    }
    Ok(came)
}

/// Carries these words out.
pub(crate) fn run(alloc: Global, words: &[&str]) -> anyhow::Result<Option<String>> {
    let [objects, clients, times] = words else {
        return Ok(None);
    };
    let work = Work {
        objects: objects.parse()?,
        clients: clients.parse()?,
        times: times.parse()?,
    };
    let count = answered(alloc, work)?;
    Ok(Some(format!(in alloc; "{count}")?))
}
