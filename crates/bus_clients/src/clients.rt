ghost use Rattle.std.specs.Prelude.{◌≡◌, ◌==◌, ◌<◌, IfOk, IfSome, OnOk, length, position, filter};
ghost use Rattle.std.specs.Prelude.{not, []};
ghost use Rattle.std.specs.Option.{option_copied};
ghost use Rattle.bus_clients.specs.declared.clients.ScriptClient.{ScriptClient as ClientRow};
ghost use Rattle.bus_clients.specs.Clients as spec;
ghost use Rattle.bus_clients.specs.Fed.{IsFed, IsFaultIn};

use plane_io::{Items, Memory};
use std::alloc::Global;
use ubus_frames::{Feeder, Frame, FrameError};

/// A client of a script.
#[derive(Drop)]
pub struct ScriptClient {
    /// The number that the script gives it.
    pub key: u32,
    /// The number that the bus gave it.
    pub number: u32,
    /// What it has sent that was not served yet.
    pub feeder: Feeder,
}

/// What a client has sent: the frames that are whole now, and the fault behind them.
#[derive(Drop)]
pub struct Fed {
    /// The number that the bus gave the client.
    pub number: u32,
    pub frames: Items<Frame>,
    pub fault: Option<FrameError>,
}

impl ScriptClient {
    /// Takes a piece of what the client sends, and hands out all frames that are whole now.
    pub(crate) fn feed(&mut self, alloc: Global, piece: &[u8]) -> Result<Fed, Memory>
        ensures fed { IfOk result (IsFed piece.now self.old self.new) }
        ensures key { self.new.key ≡ self.old.key }
    {
        let fed = self.feeder.feed(piece);
        let fault = fault_of(fed)?;
        let frames = take_all(alloc, &mut self.feeder)?;
        Ok(Fed {
            number: self.number,
            frames,
            fault,
        })
    }
}

/// The fault that a piece brought, where it brought one.
fn fault_of(fed: Result<(), FrameError>) -> Result<Option<FrameError>, Memory>
    ensures { IfOk result (IsFaultIn fed) }
{
    match fed {
        Ok(()) => Ok(None),
        Err(FrameError::Memory) => Err(Memory),
        Err(fault) => Ok(Some(fault)),
    }
}

/// Takes all whole frames out.
fn take_all(alloc: Global, feeder: &mut Feeder) -> Result<Items<Frame>, Memory>
    ensures taken { IfOk result (λ frames. frames ≡ feeder.old.frames) }
    ensures none { OnOk result (feeder.new.frames ≡ []) }
    ensures rest { feeder.new.rest ≡ feeder.old.rest }
{
    let mut frames = Items::new(alloc);
    while let Some(frame) = feeder.take() {
        frames.push(frame)?;
    }
    Ok(frames)
}

/// Where the client stands to which the script gave this number.
pub(crate) fn place_of(clients: &[ScriptClient], key: u32) -> Option<usize>
    ensures place { result ≡ position (spec.has_key key) clients.now }
    ensures within { IfSome result (λ place. place < length clients.now) }
{
    clients.iter().position(|client| client.key == key)
}

/// The client to which the script gave this number.
pub(crate) fn find_client(clients: &[ScriptClient], key: u32) -> Option<&ScriptClient>
    ensures { option_copied result ≡ spec.client_at clients.now key }
{
    clients.iter().find(|client| client.key == key)
}

/// The number that the script gave to the client of this number of the bus.
pub(crate) fn key_of(clients: &[ScriptClient], number: u32) -> Option<u32>
    ensures { result ≡ spec.key_of clients.now number }
{
    match find_number(clients, number) {
        Some(client) => Some(client.key),
        None => None,
    }
}

fn find_number(clients: &[ScriptClient], number: u32) -> Option<&ScriptClient>
    ensures { option_copied result ≡ spec.client_of clients.now number }
{
    clients.iter().find(|client| client.number == number)
}

/// Drops the client to which the script gave this number.
pub(crate) fn drop_client(clients: &mut Vec<ScriptClient>, key: u32)
    ensures { clients.new.items
        ≡ filter (λ (client : ClientRow). not (client.key == key)) clients.old.items }
{
    clients.retain(|client| client.key != key);
}
