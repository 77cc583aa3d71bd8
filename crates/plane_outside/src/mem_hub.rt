ghost use Rattle.std.specs.Prelude.{◌≡◌, ◌≤◌, ◌⊎◌, ◌↔◌, IsTrue, ◌++◌, [], ◌∷◌, Some, Ok, OnOk};
ghost use Rattle.std.specs.Prelude.{OnErr, IfOk, IsErr, Contains};
ghost use Rattle.std.specs.List.{All};
ghost use Rattle.plane_words.specs.Causes.{HasCause, next_count};
ghost use Rattle.plane_outside.specs.declared.event.HubEvent.TheVariants.{Idle};
ghost use Rattle.plane_outside.specs.Hub.{IsWhole, Gives, Sends, SendsFront, HubCause};

use crate::event::{HubError, HubEvent, Sent};
use crate::hub::Hub;
use plane_io::{Failed, Text};
use std::alloc::Global;
use std::marker::Model;

/// A hub in memory, which gives a list of events and keeps what is sent. Its calls are numbered
/// from 1 in the order in which they are made; those whose numbers stand in its list fail, and then
/// give and send nothing.
#[derive(Drop)]
pub struct MemHub {
    alloc: Global,
    /// The events that are left, the last one first.
    events: Vec<HubEvent>,
    sent: Vec<Sent>,
    failing: Vec<u64>,
    made: u64,
    faults: u64,
    refused: u64,
}

impl Model for MemHub {
    ghost use Rattle.std.specs.Prelude.{reverse};
    ghost use Rattle.std.specs.List.{All};
    ghost use Rattle.plane_outside.specs.Hub.{IsWhole};
    ghost use Rattle.plane_outside.specs.MemHub.{HubInMemory};

    ghost Value = { HubInMemory };

    ghost view = { λ hub. record {
      events = reverse hub.events.items;
      sent = hub.sent.items;
      failing = hub.failing.items;
      made = hub.made;
      faults = hub.faults;
      refused = hub.refused;
    } };

    ghost invariant = { λ hub. All IsWhole hub.events.items };
}

/// Whether the event has 1 to 65,536 bytes, if it has any.
fn is_whole(event: &HubEvent) -> bool
    ensures { IsTrue result ↔ IsWhole event.now }
{
    match event {
        HubEvent::Bytes { bytes, .. } => {
            let count = bytes.as_bytes().len();
            1 <= count && count <= 65_536
        }
        _ => true,
    }
}

/// Whether each event that has bytes has 1 to 65,536 of them.
pub fn are_whole(events: &[HubEvent]) -> bool
    ensures { IsTrue result ↔ All IsWhole events.now }
{
    for event in events {
        if !is_whole(event) {
            return false;
        }
    }
    true
}

impl MemHub {
    /// A hub that gives these events, in order, and whose calls with these numbers fail. `Idle`
    /// says that there is none at that call.
    pub fn new(alloc: Global, events: Vec<HubEvent>, failing: Vec<u64>) -> MemHub
        requires { All IsWhole events.items }
        ensures events { result.events ≡ events.items }
        ensures sent { result.sent ≡ [] }
        ensures list { result.failing ≡ failing.items }
        ensures counts { (result.made ≡ 0) × (result.faults ≡ 0) × (result.refused ≡ 0) }
    {
        let mut events = events;
        events.reverse();
        MemHub {
            alloc,
            events,
            sent: Vec::new(alloc),
            failing,
            made: 0,
            faults: 0,
            refused: 0,
        }
    }

    /// What was sent, in order.
    pub fn sent(&self) -> &[Sent]
        ensures { result.now ≡ self.now.sent }
    {
        self.sent.as_slice()
    }

    /// How many growths were refused for want of memory.
    pub fn refused(&self) -> u64
        ensures { result ≡ self.now.refused }
    {
        self.refused
    }
}

/// Bytes for a client, in memory of their own.
fn keep(alloc: Global, sent: &mut Vec<Sent>, client: u32, bytes: &[u8]) -> Result<(), Failed>
    ensures ok { OnOk result
        (Sends (Some sent.old.items) (Some sent.new.items) client bytes.now) }
    ensures err { OnErr result (sent.new.items ≡ sent.old.items) }
{
    let Ok(bytes) = Text::from_bytes(alloc, bytes) else {
        return Err(Failed);
    };
    let Ok(()) = sent.push(Sent { client, bytes }) else {
        return Err(Failed);
    };
    Ok(())
}

impl Hub for MemHub {
    ghost events = { λ hub. Some hub.events };

    ghost sent = { λ hub. Some hub.sent };

    ghost faults = { λ hub. hub.faults };

    fn next(&mut self) -> Result<HubEvent, HubError>
        ensures gives { IfOk result
            (λ event. Gives (Some self.old.events) (Some self.new.events) event) }
        ensures whole { IfOk result IsWhole }
        ensures stays { OnErr result (Some self.new.events ≡ Some self.old.events) }
        ensures sent { Some self.new.sent ≡ Some self.old.sent }
        ensures cause { HubCause self.old.faults self.new.faults result }

        // A call fails exactly where its number is in the list, and takes no memory.
        ensures number { self.new.made ≡ next_count self.old.made }
        ensures fails { IsErr result ↔ Contains self.old.failing self.new.made }
        ensures error { OnErr result (result ≡ Err HubError.Failed) }
        ensures list { self.new.failing ≡ self.old.failing }
        ensures refused { self.new.refused ≡ self.old.refused }
        ensures faultless { OnOk result (self.new.faults ≡ self.old.faults) }
    {
        self.made = self.made.saturating_add(1);
        if self.failing.contains(&self.made) {
            self.faults = self.faults.saturating_add(1);
            return Err(HubError::Failed);
        }
        match self.events.pop() {
            Some(event) => Ok(event),
            None => Ok(HubEvent::Idle),
        }
    }

    fn send(&mut self, client: u32, bytes: &[u8]) -> Result<(), Failed>
        ensures ok { OnOk result
            (Sends (Some self.old.sent) (Some self.new.sent) client bytes.now) }
        ensures err { OnErr result
            (SendsFront (Some self.old.sent) (Some self.new.sent) client bytes.now) }
        ensures events { Some self.new.events ≡ Some self.old.events }
        ensures cause { HasCause self.old.faults self.new.faults result }

        // A call fails exactly where its number is in the list or a growth was refused, and sends
        // nothing then.
        ensures number { self.new.made ≡ next_count self.old.made }
        ensures fails { OnErr result (Contains self.old.failing self.new.made
            ⊎ (self.new.refused ≡ next_count self.old.refused)) }
        ensures passes { OnOk result (¬ (Contains self.old.failing self.new.made)) }
        ensures faultless { OnOk result
            ((self.new.refused ≡ self.old.refused) × (self.new.faults ≡ self.old.faults)) }
        ensures nothing { OnErr result (self.new.sent ≡ self.old.sent) }
        ensures list { self.new.failing ≡ self.old.failing }
        ensures later { self.old.refused ≤ self.new.refused }
    {
        self.made = self.made.saturating_add(1);
        if self.failing.contains(&self.made) {
            self.faults = self.faults.saturating_add(1);
            return Err(Failed);
        }
        let Ok(()) = keep(self.alloc, &mut self.sent, client, bytes) else {
            self.refused = self.refused.saturating_add(1);
            self.faults = self.faults.saturating_add(1);
            return Err(Failed);
        };
        Ok(())
    }
}
