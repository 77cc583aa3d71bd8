use crate::files::numbers_of;
use crate::show::{put_choice, put_line, put_number};
use plane_io::Text;
use plane_outside::{Hub, HubError, HubEvent, MemHub, are_whole};
use std::alloc::Global;
use std::mem;

/// Events of the next hub, and the hub.
#[derive(Drop)]
pub(crate) struct Hubs {
    alloc: Global,
    events: Vec<HubEvent>,
    hub: Option<MemHub>,
}

impl Hubs {
    pub(crate) fn new(alloc: Global) -> Hubs {
        Hubs {
            alloc,
            events: Vec::new(alloc),
            hub: None,
        }
    }

    /// A step on a hub.
    pub(crate) fn step(
        &mut self,
        words: &[&str],
        input: &[u8],
        out: &mut Vec<u8>,
    ) -> anyhow::Result<()> {
        match words {
            ["accept" | "bytes" | "close" | "idle", ..] => {
                self.events.push(event_of(self.alloc, words, input)?)?;
                Ok(())
            }
            ["whole"] => put_choice(out, are_whole(&self.events), "yes", "no"),
            ["start", numbers @ ..] => self.start(numbers_of(self.alloc, numbers)?),
            words => match &mut self.hub {
                Some(hub) => on_hub(self.alloc, hub, words, input, out),
                None => Err(anyhow::anyhow!("no such step, or no hub")),
            },
        }
    }

    fn start(&mut self, failing: Vec<u64>) -> anyhow::Result<()> {
        let events = mem::replace(&mut self.events, Vec::new(self.alloc));
        if !are_whole(&events) {
            return Err(anyhow::anyhow!("an event that is not whole"));
        }
        self.hub = Some(MemHub::new(self.alloc, events, failing));
        Ok(())
    }
}

fn event_of(alloc: Global, words: &[&str], input: &[u8]) -> anyhow::Result<HubEvent> {
    match words {
        ["accept", client, user, group] => Ok(HubEvent::Accepted {
            client: client.parse()?,
            user: Text::from_bytes(alloc, user.as_bytes())?,
            group: Text::from_bytes(alloc, group.as_bytes())?,
        }),
        ["bytes", client] => Ok(HubEvent::Bytes {
            client: client.parse()?,
            bytes: Text::from_bytes(alloc, input)?,
        }),
        ["close", client] => Ok(HubEvent::Closed {
            client: client.parse()?,
        }),
        ["idle"] => Ok(HubEvent::Idle),
        _ => Err(anyhow::anyhow!("no such event")),
    }
}

fn on_hub(
    alloc: Global,
    hub: &mut MemHub,
    words: &[&str],
    input: &[u8],
    out: &mut Vec<u8>,
) -> anyhow::Result<()> {
    match words {
        ["next"] => match hub.next() {
            Ok(event) => tell(alloc, &event, out),
            Err(HubError::Failed) => put_line(out, b"failed"),
            Err(HubError::Memory) => Err(anyhow::anyhow!("out of memory")),
        },
        ["send", client] => {
            let sent = hub.send(client.parse()?, input);
            put_choice(out, sent.is_ok(), "ok", "failed")
        }
        ["sent"] => {
            for sent in hub.sent() {
                put_bytes(alloc, "to", sent.client, sent.bytes.as_bytes(), out)?;
            }
            Ok(())
        }
        ["refused"] => put_number(alloc, out, hub.refused()),
        _ => Err(anyhow::anyhow!("no such step")),
    }
}

/// Tells an event.
fn tell(alloc: Global, event: &HubEvent, out: &mut Vec<u8>) -> anyhow::Result<()> {
    match event {
        HubEvent::Accepted {
            client,
            user,
            group,
        } => {
            let line = format!(in alloc; "{client} came, ")?;
            out.extend_from_slice(line.as_bytes())?;
            out.extend_from_slice(user.as_bytes())?;
            out.push(b' ')?;
            put_line(out, group.as_bytes())
        }
        HubEvent::Bytes { client, bytes } => put_bytes(
            alloc,
            "from",
            *client,
            bytes.as_bytes(),
            out,
        ),
        HubEvent::Closed { client } => {
            let line = format!(in alloc; "{client} left")?;
            put_line(out, line.as_bytes())
        }
        HubEvent::Idle => put_line(out, b"nothing"),
    }
}

fn put_bytes(
    alloc: Global,
    word: &str,
    client: u32,
    bytes: &[u8],
    out: &mut Vec<u8>,
) -> anyhow::Result<()> {
    let line = format!(in alloc; "{word} {client}: ")?;
    out.extend_from_slice(line.as_bytes())?;
    put_line(out, bytes)
}
