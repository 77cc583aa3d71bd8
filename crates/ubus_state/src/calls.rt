ghost use Rattle.std.specs.Prelude.{◌≡◌, filter, not};
ghost use Rattle.ubus_state.specs.Among.{is_among};
ghost use Rattle.ubus_table.specs.Table.{Table};
ghost use Rattle.ubus_table.specs.Calls as spec;
ghost use Rattle.ubus_table.specs.Objects.{is_on};
ghost use Rattle.ubus_table.specs.Clients.{is_forgotten};
ghost use Rattle.ubus_state.specs.Calls.{call_of, is_before};

use crate::drops::is_among;
use crate::rows::is_local;
use ubus_frames::Frame;
use ubus_send::is_set;
use ubus_table::Client;

/// A call that was passed on and is not answered yet.
#[derive(Clone, Copy, PartialEq, Eq, PartialOrd, Ord)]
pub struct OpenCall {
    pub caller: u32,
    pub seq: u16,
    /// Rises from call to call, once it is kept.
    pub number: u64,
    pub object: u32,
    pub no_reply: bool,
}

/// The call that a message opens on an object.
pub fn call_on(client: &Client, request: &Frame, object: u32) -> OpenCall
    ensures { (table : Table) → table.place ≡ 0
        → call_of result ≡ spec.call_on table client.now request.now object }
{
    OpenCall {
        caller: client.number,
        seq: request.seq,
        number: 0,
        object,
        no_reply: is_set(request.no_reply),
    }
}

/// Whether the number is that of the call, where one is told.
pub fn is_of(id: Option<u32>, call: &OpenCall) -> bool
    ensures { result ≡ spec.is_of id (call_of call.now) }
{
    match id {
        Some(object) => call.object == object,
        None => true,
    }
}

/// Drops the calls on an object.
pub fn drop_calls_on(calls: &mut Vec<OpenCall>, number: u32)
    ensures { calls.new.items
        ≡ filter (λ call. not (is_on number (call_of call))) calls.old.items }
{
    calls.retain(|call| call.object != number);
}

/// Drops the calls on the objects of these numbers.
pub(crate) fn drop_calls_among(calls: &mut Vec<OpenCall>, numbers: &[u32])
    ensures { calls.new.items
        ≡ filter (λ call. not (is_among numbers.now (call_of call).object)) calls.old.items }
{
    calls.retain(|call| !is_among(numbers, call.object));
}

/// Drops the calls from a number on.
pub(crate) fn drop_calls_from(calls: &mut Vec<OpenCall>, number: u64)
    ensures { calls.new.items ≡ filter (is_before number) calls.old.items }
{
    calls.retain(|call| call.number < number);
}

/// Forgets the calls of a client, but for those that were handed out.
pub fn forget_calls(calls: &mut Vec<OpenCall>, client: u32)
    ensures { calls.new.items
        ≡ filter (λ call. not (is_forgotten client (call_of call))) calls.old.items }
{
    calls.retain(|call| !(call.caller == client && !is_local(call.object)));
}
