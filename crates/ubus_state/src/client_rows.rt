ghost use Rattle.std.specs.Prelude.{◌≡◌, ◌==◌, ◌<◌, ◌≤◌, ◌+◌, ◌++◌, ◌∷◌, [], OnOk, OnErr, filter};
ghost use Rattle.std.specs.Prelude.{not};
ghost use Rattle.std.specs.Option.{option_copied};
ghost use Rattle.std.specs.List.{find, list_any};
ghost use Rattle.std.specs.List.Sorted.{IsPartitionPoint};
ghost use Rattle.ubus_table.specs.declared.rows.Client.{Client as ClientRow};
ghost use Rattle.ubus_state.specs.Rising.{IsRising, Rise, client_number};

use crate::drops::drop_client;
use plane_io::Memory;
use std::alloc::Global;
use ubus_table::Client;

/// Clients by rising number, and the number of the next one.
#[derive(Drop)]
pub struct ClientRows {
    pub rows: Vec<Client>,
    pub next: u64,
    pub ghost rising: { IsRising client_number rows.items next },
}

impl ClientRows {
    /// No clients yet.
    pub fn new(alloc: Global, next: u64) -> ClientRows
        ensures rows { result.rows.items ≡ [] }
        ensures next { result.next ≡ next }
    {
        ClientRows {
            rows: Vec::new(alloc),
            next,
        }
    }

    /// The client of a number.
    pub fn find(&self, number: u32) -> Option<&Client>
        ensures { option_copied result
            ≡ find (λ (client : ClientRow). client.number == number) self.now.rows.items }
    {
        client_numbered(&self.rows, number)
    }

    /// Whether there is a client of the number.
    pub fn contains(&self, number: u32) -> bool
        ensures { result
            ≡ list_any (λ (client : ClientRow). client.number == number) self.now.rows.items }
    {
        self.find(number).is_some()
    }

    /// Adds the next client. Where there is not enough memory, all stays.
    pub fn push(&mut self, client: Client) -> Result<(), Memory>
        requires { client.number ≡ self.old.next }
        ensures rows { OnOk result (self.new.rows.items ≡ self.old.rows.items ++ client ∷ []) }
        ensures next { OnOk result (self.new.next ≡ client.number + 1) }
        ensures err { OnErr result (self.new.rows.items ≡ self.old.rows.items) }
        ensures err_next { OnErr result (self.new.next ≡ self.old.next) }
    {
        let next = u64::from(client.number) + 1;
        self.rows.push(client)?;
        self.next = next;
        Ok(())
    }

    /// Drops the client of a number.
    pub fn remove(&mut self, number: u32)
        ensures rows { self.new.rows.items
            ≡ filter (λ (other : ClientRow). not (other.number == number)) self.old.rows.items }
        ensures next { self.new.next ≡ self.old.next }
    {
        drop_client(&mut self.rows, number);
    }
}

fn client_numbered(clients: &[Client], number: u32) -> Option<&Client>
    requires { Rise client_number clients.now }
    ensures { option_copied result
        ≡ find (λ (client : ClientRow). client.number == number) clients.now }
{
    let place = lower_clients(clients, number);
    match clients.get(place) {
        Some(client) => client_of_number(client, number),
        None => None,
    }
}

/// How many clients have lower numbers.
fn lower_clients(clients: &[Client], number: u32) -> usize
    requires { Rise client_number clients.now }
    ensures { IsPartitionPoint (λ (client : ClientRow). client.number < number)
        (λ (client : ClientRow). number ≤ client.number) clients.now result }
{
    clients.partition_point(|client| client.number < number)
}

/// The client, where it has the number.
fn client_of_number(client: &Client, number: u32) -> Option<&Client>
    ensures { option_copied result
        ≡ find (λ (other : ClientRow). other.number == number) (client.now ∷ []) }
{
    if client.number == number {
        Some(client)
    } else {
        None
    }
}
