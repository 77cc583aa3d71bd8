ghost use Rattle.std.specs.Prelude.{◌≡◌, ◌≢◌, ◌↔◌, ◌≤◌, ◌==◌, ◌+◌, ◌++◌, false, IfOk, OnOk, OnErr};
ghost use Rattle.std.specs.Prelude.{None, true, Err, [], ◌∷◌, filter, not, is_none};
ghost use Rattle.std.specs.Option.{option_copied};
ghost use Rattle.ubus_table.specs.Table as table;
ghost use Rattle.ubus_table.specs.Clients as clients;
ghost use Rattle.ubus_table.specs.Served.{served, said_by, connect, frame as event_frame, leave};
ghost use Rattle.ubus_table.specs.Frames.{plain, hello};
ghost use Rattle.ubus_send.specs.declared.outbox.Outgoing.{Outgoing as OutgoingRow};
ghost use Rattle.ubus_send.specs.Fits.{fits};
ghost use Rattle.ubus_send.specs.Out.{out_of};
ghost use Rattle.ubus_broker.specs.declared.broker_error.BrokerError.TheVariants.{Full as IsFull};
ghost use Rattle.ubus_broker.specs.declared.broker_error.BrokerError.TheVariants as refusal;
ghost use Rattle.ubus_requests.specs.Plan.{Plans};
ghost use Rattle.ubus_broker.specs.Did.{table_of, Did};

use crate::BrokerError;
use crate::plans::plan_message;
use plane_io::{Items, Memory, Text};
use std::alloc::Global;
use ubus_acl::Acl;
use ubus_frames::Frame;
use ubus_requests::{Plan, says};
use ubus_send::{Outgoing, hello};
use ubus_state::Bus;
use ubus_table::{Client, LocalCall};

/// How many clients there may be at once.
pub const MOST_CLIENTS: usize = 256;

const LAST_NUMBER: u64 = 4_294_967_295;

/// What a step sends, in this order, and the call of a local object that it hands out.
#[derive(Drop)]
pub struct Served {
    pub out: Items<Outgoing>,
    pub call: Option<LocalCall>,
}

/// The number of a new client, and what is sent.
#[derive(Drop)]
pub struct Joined {
    pub client: u32,
    pub out: Items<Outgoing>,
}

/// A message bus.
#[derive(Drop)]
pub struct Broker {
    pub(crate) bus: Bus,
}

impl Broker {
    /// A bus with the event object and the local objects alone.
    pub fn new(alloc: Global, acl: Acl) -> Result<Broker, Memory>
        ensures { IfOk result (λ broker. table_of broker ≡ table.nobody acl) }
    {
        Ok(Broker {
            bus: Bus::new(alloc, acl)?,
        })
    }

    /// Takes a client in, and tells it its number.
    ///
    /// # Errors
    ///
    /// `Full` where there are 256 clients or their numbers are used up, `Memory` where there was
    /// not enough memory. The bus stays as it was.
    pub fn connect(&mut self, user: &[u8], group: &[u8]) -> Result<Joined, BrokerError>
        ensures ok { IfOk result (λ joined. Did
            (served fits (table_of self.old) (connect user.now group.now))
            (table_of self.new) joined.out None) }
        ensures number { IfOk result (λ joined. joined.client ≡ (table_of self.old).next_client) }
        ensures full { (result ≡ Err IsFull) ↔ (clients.is_full (table_of self.old) ≡ true) }
        ensures other { result ≢ Err refusal.NoClient }
        ensures err { OnErr result (table_of self.new ≡ table_of self.old) }
    {
        if self.has_all_clients() {
            return Err(BrokerError::Full);
        }
        match self.join(user, group) {
            Ok(joined) => Ok(joined),
            Err(_) => Err(BrokerError::Memory),
        }
    }

    fn join(&mut self, user: &[u8], group: &[u8]) -> Result<Joined, Memory>
        requires full { clients.is_full (table_of self.old) ≡ false }
        requires room { (table_of self.old).next_client ≤ LAST_NUMBER }
        ensures ok { IfOk result (λ joined. Did
            (served fits (table_of self.old) (connect user.now group.now))
            (table_of self.new) joined.out None) }
        ensures number { IfOk result (λ joined. joined.client ≡ (table_of self.old).next_client) }
        ensures err { OnErr result (table_of self.new ≡ table_of self.old) }
    {
        let number = number_of(self.bus.clients.next);
        let out = hello_to(self.bus.alloc, number)?;
        let client = new_client(self.bus.alloc, number, user, group)?;
        self.add_client(client)?;
        Ok(Joined {
            client: number,
            out,
        })
    }

    fn add_client(&mut self, client: Client) -> Result<(), Memory>
        requires { client.number ≡ (table_of self.old).next_client }
        ensures ok { OnOk result (table_of self.new ≡ record (table_of self.old) {
          clients = (table_of self.old).clients ++ client ∷ [];
          next_client = (table_of self.old).next_client + 1;
        }) }
        ensures err { OnErr result (table_of self.new ≡ table_of self.old) }
    {
        self.bus.clients.push(client)
    }

    /// Whether there are 256 clients, or their numbers are used up.
    fn has_all_clients(&self) -> bool
        ensures full { result ≡ clients.is_full (table_of self.now) }
        ensures room { result ≡ false → (table_of self.now).next_client ≤ LAST_NUMBER }
    {
        self.bus.clients.rows.len() >= MOST_CLIENTS || self.bus.clients.next > LAST_NUMBER
    }

    /// Serves a frame of a client.
    ///
    /// # Errors
    ///
    /// `NoClient` where no such client is connected, `Memory` where there was not enough memory.
    /// The bus stays as it was.
    pub fn client_frame(&mut self, client: u32, frame: &Frame) -> Result<Served, BrokerError>
        ensures ok { IfOk result (λ done. Did
            (served fits (table_of self.old) (event_frame client frame.now))
            (table_of self.new) done.out done.call) }
        ensures no_client { (result ≡ Err refusal.NoClient)
            ↔ (table.client_of (table_of self.old) client ≡ None) }
        ensures other { result ≢ Err IsFull }
        ensures err { OnErr result (table_of self.new ≡ table_of self.old) }
    {
        if self.is_unknown(client) {
            return Err(BrokerError::NoClient);
        }
        match self.serve(client, frame) {
            Ok(served) => Ok(served),
            Err(_) => Err(BrokerError::Memory),
        }
    }

    /// Whether no client of this number is connected.
    fn is_unknown(&self, client: u32) -> bool
        ensures { result ≡ is_none (table.client_of (table_of self.now) client) }
    {
        self.client_of(client).is_none()
    }

    fn client_of(&self, number: u32) -> Option<&Client>
        ensures { option_copied result ≡ table.client_of (table_of self.now) number }
    {
        self.bus.clients.find(number)
    }

    fn serve(&mut self, client: u32, frame: &Frame) -> Result<Served, Memory>
        ensures ok { IfOk result (λ done. Did
            (served fits (table_of self.old) (event_frame client frame.now))
            (table_of self.new) done.out done.call) }
        ensures err { OnErr result (table_of self.new ≡ table_of self.old) }
    {
        let plan = self.plan_of(client, frame)?;
        let Plan { change, out, call } = plan;
        self.bus.change(change)?;
        Ok(Served { out, call })
    }

    fn plan_of(&self, client: u32, frame: &Frame) -> Result<Plan, Memory>
        ensures { IfOk result (λ plan. Plans (said_by fits (table_of self.now)
            (table.client_of (table_of self.now) client) frame.now) (table_of self.now) plan) }
    {
        match self.client_of(client) {
            None => Ok(says(Items::new(self.bus.alloc))),
            Some(row) => plan_message(&self.bus, row, frame),
        }
    }

    /// Serves the leaving of a client.
    ///
    /// # Errors
    ///
    /// `NoClient` where no such client is connected, `Memory` where there was not enough memory.
    /// The bus stays as it was.
    pub fn disconnect(&mut self, client: u32) -> Result<Served, BrokerError>
        ensures ok { IfOk result (λ done. Did (served fits (table_of self.old) (leave client))
            (table_of self.new) done.out done.call) }
        ensures no_client { (result ≡ Err refusal.NoClient)
            ↔ (table.is_connected (table_of self.old) client ≡ false) }
        ensures other { result ≢ Err IsFull }
        ensures err { OnErr result (table_of self.new ≡ table_of self.old) }
    {
        if self.is_gone(client) {
            return Err(BrokerError::NoClient);
        }
        match self.let_go(client) {
            Ok(served) => Ok(served),
            Err(_) => Err(BrokerError::Memory),
        }
    }

    /// Whether no client of this number is connected.
    fn is_gone(&self, client: u32) -> bool
        ensures { result ≡ not (table.is_connected (table_of self.now) client) }
    {
        !self.bus.is_connected(client)
    }

    fn let_go(&mut self, client: u32) -> Result<Served, Memory>
        requires { not (table.is_connected (table_of self.old) client) ≡ false }
        ensures ok { IfOk result (λ done. Did (served fits (table_of self.old) (leave client))
            (table_of self.new) done.out done.call) }
        ensures err { OnErr result (table_of self.new ≡ table_of self.old) }
    {
        let leaving = self.bus.leaving(client)?;
        let out = self.bus.leave(client, leaving);
        Ok(Served {
            out: to_others(client, out),
            call: None,
        })
    }
}

/// The number of a new client, which the bus keeps in more bits.
fn number_of(next: u64) -> u32
    requires { next ≤ LAST_NUMBER }
    ensures { result ≡ next }
{
    next as u32
}

fn hello_to(alloc: Global, client: u32) -> Result<Items<Outgoing>, Memory>
    ensures { IfOk result (λ out. out ≡ out_of (plain client (hello client) ∷ [])) }
{
    let mut out = Items::new(alloc);
    out.push(Outgoing {
        client,
        frame: hello(client),
    })?;
    Ok(out)
}

fn new_client(alloc: Global, number: u32, user: &[u8], group: &[u8]) -> Result<Client, Memory>
    ensures { IfOk result (λ client. client
        ≡ record { number = number; user = user.now; group = group.now }) }
{
    Ok(Client {
        number,
        user: Text::from_bytes(alloc, user)?,
        group: Text::from_bytes(alloc, group)?,
    })
}

/// Nothing is sent to a client that leaves.
fn to_others(client: u32, out: Items<Outgoing>) -> Items<Outgoing>
    ensures { result ≡ filter (λ (sent : OutgoingRow). not (sent.client == client)) out }
{
    let mut sent = out.into_vec();
    sent.retain(|sent| sent.client != client);
    Items::from_vec(sent)
}
