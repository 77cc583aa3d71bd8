ghost use Rattle.std.specs.Prelude.{◌≡◌, ◌≢◌, ◌↔◌, ◌++◌, ◌∷◌, [], None, Err, IfOk, IfErr, OnOk};
ghost use Rattle.std.specs.Prelude.{OnErr};
ghost use Rattle.ubus_send.specs.Fits.{fits};
ghost use Rattle.ubus_table.specs.Table.{nobody};
ghost use Rattle.ubus_table.specs.Served.{served, frame as frame_event, local_reply};
ghost use Rattle.bus_clients.specs.declared.client_error.ClientError.TheVariants as refusal;
ghost use Rattle.bus_clients.specs.Clients.{client_at};
ghost use Rattle.bus_clients.specs.Fed.{HasFed};
ghost use Rattle.bus_clients.specs.Bus as spec;
ghost use Rattle.bus_clients.specs.Bus.{part_of, IsTold, HasCome, Answers};

use crate::client_error::ClientError;
use crate::clients::{Fed, ScriptClient, drop_client, find_client, place_of};
use crate::sends::append_sends;
use blob_codec::Attr;
use plane_io::{Items, Memory};
use std::alloc::Global;
use ubus_acl::Acl;
use ubus_broker::{Broker, BrokerError, Served};
use ubus_frames::{Feeder, Frame};
use ubus_send::Outgoing;
use ubus_table::LocalCall;

/// A message bus, and the clients that a script opened.
#[derive(Drop)]
pub struct ScriptBus {
    pub alloc: Global,
    pub broker: Broker,
    /// As they were opened: at most 256.
    pub clients: Vec<ScriptClient>,
}

impl ScriptBus {
    /// A bus without clients.
    ///
    /// # Errors
    ///
    /// Want of memory.
    pub fn new(alloc: Global, acl: Acl) -> Result<ScriptBus, Memory>
        ensures { IfOk result (λ bus. part_of bus ≡ spec.begun acl) }
    {
        Ok(ScriptBus {
            alloc,
            broker: Broker::new(alloc, acl)?,
            clients: Vec::new(alloc),
        })
    }

    /// Opens a client of the script, as this user and group, and appends the lines of what is sent.
    ///
    /// # Errors
    ///
    /// `ClientOpen` where the script has a client of that number open, and else `Full` where there
    /// are 256 or their numbers are used up: the bus stays then. `Memory` may leave anything of it.
    pub fn open(
        &mut self,
        key: u32,
        user: &[u8],
        group: &[u8],
        told: &mut Vec<u8>,
    ) -> Result<(), ClientError>
        ensures { Answers (spec.opened (part_of self.old) key user.now group.now)
            (part_of self.old) (part_of self.new) told.old.items told.new.items result }
    {
        if find_client(&self.clients, key).is_some() {
            return Err(ClientError::ClientOpen);
        }
        let joined = match self.broker.connect(user, group) {
            Ok(joined) => joined,
            Err(BrokerError::Full) => return Err(ClientError::Full),
            Err(_) => return Err(ClientError::Memory),
        };
        self.clients.push(ScriptClient {
            key,
            number: joined.client,
            feeder: Feeder::new(self.alloc),
        })?;
        append_sends(&self.clients, joined.out.as_slice(), told)?;
        Ok(())
    }

    /// Takes a piece of what a client of the script sends, and hands out all of its frames that are
    /// whole now.
    ///
    /// # Errors
    ///
    /// `NoClient` exactly where the script has no client of that number open. `Memory` may leave
    /// anything of what the client has sent.
    pub fn feed(&mut self, key: u32, piece: &[u8]) -> Result<Fed, ClientError>
        ensures fed { IfOk result
            (HasFed key piece.now self.old.clients.items self.new.clients.items) }
        ensures bus { self.new.broker ≡ self.old.broker }
        ensures unknown { (result ≡ Err refusal.NoClient)
            ↔ (client_at self.old.clients.items key ≡ None) }
        ensures stays { result ≡ Err refusal.NoClient
            → self.new.clients.items ≡ self.old.clients.items }
        ensures others { (result ≢ Err refusal.ClientOpen) × (result ≢ Err refusal.Full) }
    {
        let Some(place) = place_of(&self.clients, key) else {
            return Err(ClientError::NoClient);
        };
        match self.clients[place].feed(self.alloc, piece) {
            Ok(fed) => Ok(fed),
            Err(_) => Err(ClientError::Memory),
        }
    }

    /// Serves a frame of the client of this number of the bus, and appends the lines of what is
    /// sent.
    ///
    /// # Errors
    ///
    /// Want of memory.
    pub fn serve(
        &mut self,
        number: u32,
        frame: &Frame,
        told: &mut Vec<u8>,
    ) -> Result<Option<LocalCall>, Memory>
        ensures { IfOk result (HasCome (spec.came_by (part_of self.old)
            (frame_event number frame.now)) (part_of self.new) told.old.items told.new.items) }
    {
        match self.broker.client_frame(number, frame) {
            Ok(served) => self.tell(served, told),
            Err(BrokerError::NoClient) => Ok(None),
            Err(_) => Err(Memory),
        }
    }

    /// A local object answers a call that was handed out, and the lines of what is sent are
    /// appended.
    ///
    /// # Errors
    ///
    /// Want of memory.
    pub fn reply(
        &mut self,
        call: &LocalCall,
        status: u32,
        payload: Option<sqlite_items::Items<Attr>>,
        told: &mut Vec<u8>,
    ) -> Result<(), Memory>
        ensures { OnOk result (IsTold (spec.came_by (part_of self.old)
            (local_reply call.now.caller call.now.seq call.now.object status payload))
            (part_of self.new) told.old.items told.new.items) }
    {
        if !self.broker.is_handed_out(call) {
            return Ok(());
        }
        let Ok(served) = self.broker.local_reply(call, status, payload) else {
            return Err(Memory);
        };
        self.tell(served, told)?;
        Ok(())
    }

    /// Closes a client of the script, and appends the lines of what is sent.
    ///
    /// # Errors
    ///
    /// `NoClient` where the script has no client of that number open: the bus stays then. `Memory`
    /// may leave anything of it.
    pub fn close(&mut self, key: u32, told: &mut Vec<u8>) -> Result<(), ClientError>
        ensures { Answers (spec.closed (part_of self.old) key)
            (part_of self.old) (part_of self.new) told.old.items told.new.items result }
    {
        let number = match find_client(&self.clients, key) {
            Some(client) => client.number,
            None => return Err(ClientError::NoClient),
        };
        drop_client(&mut self.clients, key);
        match self.broker.disconnect(number) {
            Ok(served) => {
                self.tell(served, told)?;
                Ok(())
            }
            Err(BrokerError::NoClient) => Ok(()),
            Err(_) => Err(ClientError::Memory),
        }
    }

    fn tell(&self, served: Served, told: &mut Vec<u8>) -> Result<Option<LocalCall>, Memory>
        ensures lines { OnOk result (told.new.items ≡ told.old.items
            ++ spec.lines_in self.now.clients.items served) }
        ensures call { IfOk result (λ call. call ≡ served.call) }
    {
        append_sends(&self.clients, served.out.as_slice(), told)?;
        Ok(served.call)
    }
}
