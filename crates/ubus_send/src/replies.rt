ghost use Rattle.std.specs.Prelude.{◌≡◌, IfOk};
ghost use Rattle.ubus_table.specs.Frames as spec;
ghost use Rattle.ubus_table.specs.Asked as asked;
ghost use Rattle.ubus_table.specs.Objects as objects;
ghost use Rattle.ubus_table.specs.Calls as calls;
ghost use Rattle.ubus_table.specs.Refusal as refusal;

use crate::{DATA, STATUS};
use blob_codec::{Attr, Blob, copy_attrs};
use plane_io::{Memory, Text};
use sqlite_items::Items;
use std::alloc::Global;
use ubus_frames::Frame;
use ubus_table::Object;

/// A STATUS for a request.
pub fn status_reply(request: &Frame, status: u32) -> Frame
    ensures { result ≡ spec.status_reply request.now status }
{
    let mut frame = Frame::new(STATUS, request.seq, request.peer);
    frame.status = Some(status);
    frame
}

/// The answer to a PING: all that it has.
pub fn pong(alloc: Global, request: &Frame) -> Result<Frame, Memory>
    ensures { IfOk result (λ frame. frame ≡ asked.pong request.now) }
{
    Ok(Frame {
        kind: DATA,
        seq: request.seq,
        peer: request.peer,
        status: request.status,
        path: copy_text(&request.path)?,
        id: request.id,
        method: copy_text(&request.method)?,
        objtype: request.objtype,
        signature: copy_list(alloc, &request.signature)?,
        payload: copy_list(alloc, &request.payload)?,
        target: request.target,
        active: request.active,
        no_reply: request.no_reply,
        subscribers: copy_numbers(alloc, &request.subscribers)?,
        user: copy_text(&request.user)?,
        group: copy_text(&request.group)?,
    })
}

/// What a LOOKUP tells of an object.
pub fn description(alloc: Global, request: &Frame, object: &Object) -> Result<Frame, Memory>
    ensures { IfOk result (λ frame. frame ≡ asked.description request.now object.now) }
{
    let mut frame = Frame::new(DATA, request.seq, request.peer);
    frame.path = copy_text(&object.path)?;
    frame.id = Some(object.number);
    frame.objtype = Some(object.objtype);
    frame.signature = Some(copy_attrs(alloc, object.signature.as_slice())?);
    Ok(frame)
}

/// The number of an object, and its type.
pub fn object_data(request: &Frame, number: u32, objtype: Option<u32>) -> Frame
    ensures { result ≡ objects.object_data request.now number objtype }
{
    let mut frame = Frame::new(DATA, request.seq, request.peer);
    frame.id = Some(number);
    frame.objtype = objtype;
    frame
}

/// What the caller of a NOTIFY is told: who is subscribed to its object.
pub fn subscribers_told(request: &Frame, object: u32, subscribers: Items<u32>) -> Frame
    ensures { result ≡ calls.subscribers_told request.now object subscribers }
{
    let mut frame = status_reply(request, 0);
    frame.id = Some(object);
    frame.subscribers = Some(subscribers);
    frame
}

/// What is told in front of a status 6: the function of an object that was denied.
pub fn denial_data(
    alloc: Global,
    request: &Frame,
    function: &[u8],
    object: &[u8],
) -> Result<Frame, Memory>
    ensures { IfOk result (λ frame.
        frame ≡ refusal.denial_data request.now function.now object.now) }
{
    let mut frame = Frame::new(DATA, request.seq, request.peer);
    frame.payload = Some(denied(alloc, function, object)?);
    Ok(frame)
}

fn denied(alloc: Global, function: &[u8], object: &[u8]) -> Result<Items<Attr>, Memory>
    ensures { IfOk result (λ attrs. attrs ≡ refusal.denied function.now object.now) }
{
    let mut parts = Items::new(alloc);
    parts.push(text_attr(alloc, b"function", function)?)?;
    parts.push(text_attr(alloc, b"object", object)?)?;
    parts.push(text_attr(alloc, b"scope", b"ubus")?)?;
    let mut attrs = Items::new(alloc);
    attrs.push(Attr {
        name: Text::from_bytes(alloc, b"denied")?,
        value: Blob::Table(parts),
    })?;
    Ok(attrs)
}

fn text_attr(alloc: Global, name: &[u8], text: &[u8]) -> Result<Attr, Memory>
    ensures { IfOk result (λ attr. attr ≡ refusal.text_attr name.now text.now) }
{
    Ok(Attr {
        name: Text::from_bytes(alloc, name)?,
        value: Blob::Str(Text::from_bytes(alloc, text)?),
    })
}

pub(crate) fn copy_text(text: &Option<Text>) -> Result<Option<Text>, Memory>
    ensures { IfOk result (λ copy. copy ≡ text.now) }
{
    match text {
        Some(text) => Ok(Some(text.copy()?)),
        None => Ok(None),
    }
}

pub(crate) fn copy_list(
    alloc: Global,
    attrs: &Option<Items<Attr>>,
) -> Result<Option<Items<Attr>>, Memory>
    ensures { IfOk result (λ copy. copy ≡ attrs.now) }
{
    match attrs {
        Some(attrs) => Ok(Some(copy_attrs(alloc, attrs.as_slice())?)),
        None => Ok(None),
    }
}

fn copy_numbers(alloc: Global, numbers: &Option<Items<u32>>) -> Result<Option<Items<u32>>, Memory>
    ensures { IfOk result (λ copy. copy ≡ numbers.now) }
{
    match numbers {
        Some(numbers) => {
            let copy = Vec::from_slice(alloc, numbers.as_slice())?;
            Ok(Some(Items::from_vec(copy)))
        }
        None => Ok(None),
    }
}
