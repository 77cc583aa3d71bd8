ghost use Rattle.std.specs.Prelude.{◌≡◌, ◌<◌, ◌∷◌, ◌++◌, ◌&&◌, not, [], Some, OnErr, IfOk, IfErr};
ghost use Rattle.std.specs.Prelude.{true, length, if◌then◌else◌};
ghost use Rattle.std.specs.List.{list_any, position};
ghost use Rattle.ubus_table.specs.Table as table;
ghost use Rattle.ubus_table.specs.Clients as spec;
ghost use Rattle.ubus_table.specs.Served.{served, local_reply as reply_event};
ghost use Rattle.ubus_table.specs.Frames.{where_fits};
ghost use Rattle.ubus_table.specs.Objects.{told};
ghost use Rattle.ubus_state.specs.Calls.{call_of};
ghost use Rattle.ubus_send.specs.Fits.{fits};
ghost use Rattle.ubus_send.specs.Out.{out_of};
ghost use Rattle.ubus_broker.specs.declared.broker_error.BrokerError.TheVariants as refusal;
ghost use Rattle.ubus_broker.specs.Did.{table_of, Did};

use crate::{Broker, BrokerError, Served};
use blob_codec::Attr;
use plane_io::{Items, Memory};
use std::alloc::Global;
use ubus_frames::Frame;
use ubus_send::{Outgoing, call_data, does_fit, send_if_fits};
use ubus_state::{OpenCall, told};
use ubus_table::LocalCall;

impl Broker {
    /// Whether the call was handed out, and is not answered yet.
    pub fn is_handed_out(&self, call: &LocalCall) -> bool
        ensures { result
            ≡ list_any (spec.is_handed_out call.now.caller call.now.seq call.now.object)
            (table_of self.now).calls }
    {
        self.bus
            .calls
            .is_handed_out(call.caller, call.seq, call.object)
    }

    /// Serves the answer of a local object. The call was handed out, and is not answered yet, as
    /// `is_handed_out` tells.
    ///
    /// # Errors
    ///
    /// `Memory` where there was not enough memory. The bus stays as it was.
    pub fn local_reply(
        &mut self,
        call: &LocalCall,
        status: u32,
        payload: Option<sqlite_items::Items<Attr>>,
    ) -> Result<Served, BrokerError>
        requires { list_any (spec.is_handed_out call.now.caller call.now.seq call.now.object)
            (table_of self.old).calls ≡ true }
        ensures ok { IfOk result (λ done. Did (served fits (table_of self.old)
            (reply_event call.now.caller call.now.seq call.now.object status payload))
            (table_of self.new) done.out done.call) }
        ensures only_memory { IfErr result (λ error. error ≡ refusal.Memory) }
        ensures err { OnErr result (table_of self.new ≡ table_of self.old) }
    {
        match self.answer(call, status, payload) {
            Ok(served) => Ok(served),
            Err(_) => Err(BrokerError::Memory),
        }
    }

    fn answer(
        &mut self,
        call: &LocalCall,
        status: u32,
        payload: Option<sqlite_items::Items<Attr>>,
    ) -> Result<Served, Memory>
        ensures ok { IfOk result (λ done. Did (served fits (table_of self.old)
            (reply_event call.now.caller call.now.seq call.now.object status payload))
            (table_of self.new) done.out done.call) }
        ensures err { OnErr result (table_of self.new ≡ table_of self.old) }
    {
        match self
            .bus
            .calls
            .handed_out(call.caller, call.seq, call.object)
        {
            None => Ok(Served {
                out: Items::new(self.bus.alloc),
                call: None,
            }),
            Some(place) => self.answer_at(place, call, status, payload),
        }
    }

    fn answer_at(
        &mut self,
        place: usize,
        call: &LocalCall,
        status: u32,
        payload: Option<sqlite_items::Items<Attr>>,
    ) -> Result<Served, Memory>
        requires at { position
            (spec.is_handed_out call.now.caller call.now.seq call.now.object)
            (table_of self.old).calls ≡ Some place }
        requires within { place < length self.old.bus.calls.rows.items }
        ensures ok { IfOk result (λ done. Did (served fits (table_of self.old)
            (reply_event call.now.caller call.now.seq call.now.object status payload))
            (table_of self.new) done.out done.call) }
        ensures err { OnErr result (table_of self.new ≡ table_of self.old) }
    {
        let kept = self.bus.calls.rows[place];
        let out = self.reply(&kept, status, payload)?;
        self.bus.calls.remove(place);
        Ok(Served { out, call: None })
    }

    /// Whether the caller is there, and wants a reply.
    fn is_heard(&self, call: &OpenCall) -> bool
        ensures { result ≡ (table.is_connected (table_of self.now) call.now.caller
            && not call.now.no_reply) }
    {
        self.bus.is_connected(call.caller) && !call.no_reply
    }

    fn reply(
        &self,
        call: &OpenCall,
        status: u32,
        payload: Option<sqlite_items::Items<Attr>>,
    ) -> Result<Items<Outgoing>, Memory>
        ensures { IfOk result (λ out. out ≡ out_of
            (if table.is_connected (table_of self.now) call.now.caller && not call.now.no_reply
            then spec.reply_sent fits (call_of call.now) status payload else [])) }
    {
        if self.is_heard(call) {
            return reply_to(self.bus.alloc, call, status, payload);
        }
        Ok(Items::new(self.bus.alloc))
    }
}

fn reply_to(
    alloc: Global,
    call: &OpenCall,
    status: u32,
    payload: Option<sqlite_items::Items<Attr>>,
) -> Result<Items<Outgoing>, Memory>
    ensures { IfOk result (λ out. out
        ≡ out_of (spec.reply_sent fits (call_of call.now) status payload)) }
{
    match payload {
        None => reply_status_alone(alloc, call, status),
        Some(values) => {
            let frame = call_data(call.seq, call.object, Some(values));
            reply_data_too(alloc, call, status, frame)
        }
    }
}

fn reply_status_alone(
    alloc: Global,
    call: &OpenCall,
    status: u32,
) -> Result<Items<Outgoing>, Memory>
    ensures { IfOk result (λ out. out
        ≡ out_of (told (Some status) (call_of call.now) ∷ [])) }
{
    let mut out = Items::new(alloc);
    out.push(told(call, Some(status)))?;
    Ok(out)
}

fn reply_data_too(
    alloc: Global,
    call: &OpenCall,
    status: u32,
    frame: Frame,
) -> Result<Items<Outgoing>, Memory>
    ensures { IfOk result (λ out. out ≡ out_of (where_fits fits call.now.caller frame
        ++ told (Some (spec.reply_status fits status (frame ∷ []))) (call_of call.now) ∷ [])) }
{
    let code = reply_status(status, &frame);
    let mut out = Items::new(alloc);
    send_if_fits(&mut out, call.caller, frame)?;
    out.push(told(call, Some(code)))?;
    Ok(out)
}

/// A status 0 is 9 where the DATA does not fit.
fn reply_status(status: u32, frame: &Frame) -> u32
    ensures { result ≡ spec.reply_status fits status (frame.now ∷ []) }
{
    if status == 0 && !does_fit(frame) {
        9
    } else {
        status
    }
}
