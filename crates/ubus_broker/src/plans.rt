ghost use Rattle.std.specs.Prelude.{◌≡◌, IfOk};
ghost use Rattle.ubus_table.specs.Asked.{pinged, looked_up};
ghost use Rattle.ubus_table.specs.Calls.{passes_data};
ghost use Rattle.ubus_table.specs.Served.{said};
ghost use Rattle.ubus_send.specs.Fits.{fits};
ghost use Rattle.ubus_state.specs.State.{table_of};
ghost use Rattle.ubus_requests.specs.Plan.{Plans};

use plane_io::Memory;
use ubus_frames::Frame;
use ubus_requests::{
    Plan, add, invoke, look_up, notify, pass_data, pass_status, ping, refuse, remove, says,
    subscribe, unsubscribe,
};
use ubus_send::{
    ADD_OBJECT, DATA, INVOKE, LOOKUP, NOTIFY, PING, REMOVE_OBJECT, STATUS, SUBSCRIBE, UNSUBSCRIBE,
};
use ubus_state::Bus;
use ubus_table::Client;

/// What a message of a client comes to.
pub(crate) fn plan_message(bus: &Bus, client: &Client, message: &Frame) -> Result<Plan, Memory>
    ensures { IfOk result (λ plan. Plans
        (said fits (table_of bus.now) client.now message.now) (table_of bus.now) plan) }
{
    match message.kind {
        STATUS => pass_status(bus, client.number, message),
        DATA => plan_data(bus, client.number, message),
        PING => plan_ping(bus, client.number, message),
        LOOKUP => plan_look_up(bus, client.number, message),
        INVOKE => invoke(bus, client, message),
        ADD_OBJECT => add(bus, client, message),
        REMOVE_OBJECT => remove(bus, client, message),
        SUBSCRIBE => subscribe(bus, client, message),
        UNSUBSCRIBE => unsubscribe(bus, client, message),
        NOTIFY => notify(bus, client, message),
        _ => refuse(bus.alloc, client.number, message, 1),
    }
}

fn plan_data(bus: &Bus, client: u32, message: &Frame) -> Result<Plan, Memory>
    ensures { IfOk result (λ plan. Plans
        (passes_data fits (table_of bus.now) client message.now) (table_of bus.now) plan) }
{
    let out = pass_data(bus, client, message)?;
    Ok(says(out))
}

fn plan_ping(bus: &Bus, client: u32, message: &Frame) -> Result<Plan, Memory>
    ensures { IfOk result (λ plan. Plans
        (pinged fits (table_of bus.now) client message.now) (table_of bus.now) plan) }
{
    let out = ping(bus, client, message)?;
    Ok(says(out))
}

fn plan_look_up(bus: &Bus, client: u32, message: &Frame) -> Result<Plan, Memory>
    ensures { IfOk result (λ plan. Plans
        (looked_up fits (table_of bus.now) client message.now) (table_of bus.now) plan) }
{
    let out = look_up(bus, client, message)?;
    Ok(says(out))
}
