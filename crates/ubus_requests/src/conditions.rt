//! Conditions of objects and messages.
ghost use Rattle.std.specs.Prelude.{◌≡◌, ◌==◌, ◌&&◌, not};
ghost use Rattle.ubus_table.specs.Table.{no_client, event_object};
ghost use Rattle.ubus_table.specs.Frames.{is_set};
ghost use Rattle.ubus_table.specs.Calls.{is_open};
ghost use Rattle.ubus_send.specs.Fits.{fits};
ghost use Rattle.ubus_state.specs.State.{table_of};

use ubus_frames::Frame;
use ubus_send::{does_fit, is_set};
use ubus_state::{Bus, EVENT_OBJECT, NO_CLIENT};
use ubus_table::{Client, Object};

/// Whether the object is no client's.
pub fn is_no_clients(object: &Object) -> bool
    ensures { result ≡ (object.now.owner == no_client) }
{
    object.owner == NO_CLIENT
}

/// Whether the object is the client's.
pub fn is_clients(object: &Object, client: &Client) -> bool
    ensures { result ≡ (object.now.owner == client.now.number) }
{
    object.owner == client.number
}

/// Whether the object is another's.
pub fn is_anothers(object: &Object, client: &Client) -> bool
    ensures { result ≡ not (object.now.owner == client.now.number) }
{
    object.owner != client.number
}

/// Whether the object is the event object.
pub fn is_event_object(object: &Object) -> bool
    ensures { result ≡ (object.now.number == event_object.number) }
{
    object.number == EVENT_OBJECT
}

/// Whether the client has an open call with the sequence.
pub fn is_open_for(bus: &Bus, client: &Client, request: &Frame) -> bool
    ensures { result ≡ is_open (table_of bus.now).calls client.now.number request.now.seq }
{
    bus.calls.is_open(client.number, request.seq)
}

/// Whether a reply is asked for, and the client has an open call with the sequence.
pub fn is_taken_sequence(bus: &Bus, client: &Client, request: &Frame) -> bool
    ensures { result ≡ (not (is_set request.now.no_reply)
        && is_open (table_of bus.now).calls client.now.number request.now.seq) }
{
    !is_set(request.no_reply) && is_open_for(bus, client, request)
}

/// Whether a reply is asked for, and the frame that is passed on does not fit.
pub fn is_too_long(request: &Frame, frame: &Frame) -> bool
    ensures { result ≡ (not (is_set request.now.no_reply) && not (fits frame.now)) }
{
    !is_set(request.no_reply) && !does_fit(frame)
}

/// Whether a reply is asked for, and the frame that is passed on fits.
pub fn is_opened(request: &Frame, frame: &Frame) -> bool
    ensures { result ≡ (not (is_set request.now.no_reply) && fits frame.now) }
{
    !is_set(request.no_reply) && does_fit(frame)
}
