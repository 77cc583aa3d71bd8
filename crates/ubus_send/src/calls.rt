ghost use Rattle.std.specs.Prelude.{◌≡◌, IfOk, [], unwrap_or, Some};
ghost use Rattle.ubus_table.specs.Frames as spec;
ghost use Rattle.ubus_table.specs.Calls as calls;
ghost use Rattle.ubus_table.specs.Events as events;

use crate::replies::{copy_list, copy_text};
use crate::{DATA, INVOKE, STATUS};
use blob_codec::{Attr, copy_attrs};
use plane_io::{Memory, Text};
use sqlite_items::Items;
use std::alloc::Global;
use ubus_frames::Frame;
use ubus_table::Client;

/// The STATUS of a call.
pub fn call_status(seq: u16, object: u32, status: Option<u32>) -> Frame
    ensures { result ≡ spec.call_status seq object status }
{
    let mut frame = Frame::new(STATUS, seq, object);
    frame.status = status;
    frame
}

/// The DATA of a call.
pub fn call_data(seq: u16, object: u32, payload: Option<Items<Attr>>) -> Frame
    ensures { result ≡ spec.call_data seq object payload }
{
    let mut frame = Frame::new(DATA, seq, object);
    frame.payload = payload;
    frame
}

/// An INVOKE or a NOTIFY as it is passed on to the owner of an object, with the user and the group
/// of its caller.
pub fn passed_on(
    alloc: Global,
    caller: &Client,
    request: &Frame,
    object: u32,
) -> Result<Frame, Memory>
    ensures { IfOk result (λ frame. frame ≡ calls.passed_on caller.now request.now object) }
{
    let mut frame = Frame::new(INVOKE, request.seq, caller.number);
    frame.id = Some(object);
    frame.method = copy_text(&request.method)?;
    frame.no_reply = where_set(is_set(request.no_reply));
    frame.user = Some(caller.user.copy()?);
    frame.group = Some(caller.group.copy()?);
    frame.payload = copy_list(alloc, &request.payload)?;
    Ok(frame)
}

/// An event as it is sent to an object.
pub fn event_frame(alloc: Global, id: &[u8], values: &[Attr], object: u32) -> Result<Frame, Memory>
    ensures { IfOk result (λ frame. frame ≡ events.event_frame id.now values.now object) }
{
    let mut frame = Frame::new(INVOKE, 0, 0);
    frame.id = Some(object);
    frame.method = Some(Text::from_bytes(alloc, id)?);
    frame.no_reply = Some(true);
    frame.payload = Some(copy_attrs(alloc, values)?);
    Ok(frame)
}

/// The arguments of a call of a local object: none where the frame has no data.
pub fn local_args(alloc: Global, request: &Frame) -> Result<Items<Attr>, Memory>
    ensures { IfOk result (λ args. args ≡ unwrap_or request.now.payload []) }
{
    match &request.payload {
        Some(attrs) => copy_attrs(alloc, attrs.as_slice()),
        None => Ok(Items::new(alloc)),
    }
}

/// A flag is set: it is there and true.
pub fn is_set(flag: Option<bool>) -> bool
    ensures { result ≡ spec.is_set flag }
{
    match flag {
        Some(flag) => flag,
        None => false,
    }
}

fn where_set(flag: bool) -> Option<bool>
    ensures { result ≡ spec.where_set flag }
{
    if flag { Some(true) } else { None }
}
