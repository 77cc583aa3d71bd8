use crate::bench::Bench;
use crate::told::{put_call, put_sent};
use blob_codec::Attr;
use bus_words::{attributes_of, message_of};
use sqlite_items::Items;
use ubus_broker::{BrokerError, Served};
use ubus_table::LocalCall;

impl Bench {
    /// A client sends a message.
    pub(crate) fn message(
        &mut self,
        client: u32,
        kind: &str,
        seq: &str,
        fields: &[&str],
        input: &[u8],
        out: &mut Vec<u8>,
    ) -> anyhow::Result<()> {
        let frame = message_of(self.alloc, kind, seq, fields, input)?;
        let served = self.bus.broker.client_frame(client, &frame);
        self.tell(served, out)
    }

    /// A local object answers a call that was handed out.
    pub(crate) fn reply(
        &mut self,
        words: &[&str],
        input: &[u8],
        out: &mut Vec<u8>,
    ) -> anyhow::Result<()> {
        let [caller, seq, object, status, payload @ ..] = words else {
            return Err(anyhow::anyhow!("no reply"));
        };
        let payload = self.payload(payload, input)?;
        match self.handed_out(caller.parse()?, seq.parse()?, object.parse()?) {
            Some(call) => self.answer(&call, status.parse()?, payload, out),
            None => {
                out.extend_from_slice(b"no such call\n")?;
                Ok(())
            }
        }
    }

    fn payload(&self, words: &[&str], input: &[u8]) -> anyhow::Result<Option<Items<Attr>>> {
        let json = match words {
            [] => return Ok(None),
            ["<"] => str::from_utf8(input)?,
            [json] => json,
            _ => return Err(anyhow::anyhow!("more than one payload")),
        };
        Ok(Some(attributes_of(self.alloc, json)?))
    }

    /// Takes a call out that was handed out.
    fn handed_out(&mut self, caller: u32, seq: u16, object: u32) -> Option<LocalCall> {
        let place = self.handed.iter().position(|call| call.caller == caller
            && call.seq == seq
            && call.object == object)?;
        Some(self.handed.remove(place))
    }

    fn answer(
        &mut self,
        call: &LocalCall,
        status: u32,
        payload: Option<Items<Attr>>,
        out: &mut Vec<u8>,
    ) -> anyhow::Result<()> {
        if !self.bus.broker.is_handed_out(call) {
            out.extend_from_slice(b"no such call\n")?;
            return Ok(());
        }
        let served = self.bus.broker.local_reply(call, status, payload);
        self.tell(served, out)
    }

    /// Puts what is sent, and keeps the call that is handed out.
    pub(crate) fn tell(
        &mut self,
        served: Result<Served, BrokerError>,
        out: &mut Vec<u8>,
    ) -> anyhow::Result<()> {
        let Served { out: sent, call } = match served {
            Ok(served) => served,
            Err(error) => return self.refuse(error, out),
        };
        put_sent(self.alloc, self.is_short, sent.as_slice(), out)?;
        if let Some(call) = call {
            put_call(self.alloc, &call, out)?;
            self.handed.push(call)?;
        }
        Ok(())
    }
}
