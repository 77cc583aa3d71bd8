ghost use Rattle.std.specs.Prelude.{◌≡◌, ◌≤◌, length, None, IsOk, IfOk, OnOk, OnErr, IfSome};
ghost use Rattle.plane_words.specs.Causes.{Rose, HasCause};
ghost use Rattle.plane_outside.specs.Hub.{IsWhole, Gives, Sends, SendsFront, HubCause};
ghost use Rattle.plane_real.specs.Clients.{ComesAs};

use plane_io::{Failed, Text};
use plane_outside::{Hub, HubError, HubEvent};
use std::alloc::Global;
use std::io;
use std::io::{ErrorKind, Read, Write};
use std::net::Net;
use std::os::unix::net::{UnixListener, UnixStream};
use std::rt::Files;
use std::time::Duration;

/// How many bytes are read at once.
const PIECE: usize = 65_536;

/// How many seconds a peer may take nothing before it counts as one that has closed.
const PATIENCE: u64 = 10;

/// A connected client.
#[derive(Drop)]
struct Client {
    number: u32,
    stream: UnixStream,
    has_closed: bool,
}

/// A hub over a socket in the file system. Every client has the user and the group that the hub was
/// made with.
#[derive(Drop)]
pub struct UnixHub {
    alloc: Global,
    listener: UnixListener,
    clients: Vec<Client>,
    user: Text,
    group: Text,
    next_number: u32,
    turn: usize,
    faults: u64,
}

impl Client {
    /// What the client sent, as far as it is there: how many bytes, 0 where it has closed, and none
    /// where there is nothing now.
    fn hear(&mut self, into: &mut [u8]) -> Option<usize>
        ensures { IfSome result (λ count. count ≤ length into.new) }
    {
        match self.stream.read(into) {
            Ok(count) => Some(count),
            Err(error) => {
                let kind = error.kind();
                if kind == ErrorKind::WouldBlock || kind == ErrorKind::Interrupted {
                    None
                } else {
                    Some(0)
                }
            }
        }
    }

    /// Sends the bytes, unless the client has closed. One that takes nothing for ten seconds has
    /// closed.
    fn tell(&mut self, bytes: &[u8]) {
        if self.has_closed {
            return;
        }
        let is_told = self.stream.set_nonblocking(false).is_ok()
            && self.stream.write_all(bytes).is_ok()
            && self.stream.set_nonblocking(true).is_ok();
        self.has_closed = !is_told;
    }
}

/// The number of a client that has closed.
fn closed_client(clients: &[Client]) -> Option<u32> {
    for client in clients {
        if client.has_closed {
            return Some(client.number);
        }
    }
    None
}

impl UnixHub {
    /// A hub at this path, without clients and faults so far.
    ///
    /// # Errors
    ///
    /// Where the system does not make the socket.
    pub fn bind<R: Files + Net>(
        rt: &R,
        alloc: Global,
        path: &str,
        user: Text,
        group: Text,
    ) -> io::Result<UnixHub>
        ensures faults { IfOk result (λ hub. hub.faults ≡ 0) }
        ensures names { IfOk result (λ hub. (hub.user ≡ user) × (hub.group ≡ group)) }
    {
        let listener = UnixListener::bind(rt, path)?;
        listener.set_nonblocking(true)?;
        Ok(UnixHub {
            alloc,
            listener,
            clients: Vec::new(alloc),
            user,
            group,
            next_number: 1,
            turn: 0,
            faults: 0,
        })
    }

    /// Counts a fault.
    fn fault(&mut self) -> HubError
        ensures failed { result ≡ HubError.Failed }
        ensures rose { Rose self.old.faults self.new.faults }
        ensures later { self.old.faults ≤ self.new.faults }
        ensures keeps { (self.new.user ≡ self.old.user) × (self.new.group ≡ self.old.group) }
    {
        self.faults = self.faults.saturating_add(1);
        HubError::Failed
    }

    /// Takes a connection in as a client.
    fn admit(&mut self, stream: UnixStream) -> Result<HubEvent, HubError>
        ensures whole { IfOk result IsWhole }
        ensures cause { HubCause self.old.faults self.new.faults result }
        ensures faultless { OnOk result (self.new.faults ≡ self.old.faults) }
        ensures names { IfOk result (ComesAs self.old.user self.old.group) }
        ensures keeps { (self.new.user ≡ self.old.user) × (self.new.group ≡ self.old.group) }
    {
        let patience = Some(Duration::from_secs(PATIENCE));
        if stream.set_nonblocking(true).is_err() || stream.set_write_timeout(patience).is_err() {
            return Err(self.fault());
        }
        let Ok(user) = self.user.copy() else {
            return Err(HubError::Memory);
        };
        let Ok(group) = self.group.copy() else {
            return Err(HubError::Memory);
        };
        let number = self.next_number;
        let client = Client {
            number,
            stream,
            has_closed: false,
        };
        let Ok(()) = self.clients.push(client) else {
            return Err(HubError::Memory);
        };
        self.next_number = self.next_number.saturating_add(1);
        Ok(HubEvent::Accepted {
            client: number,
            user,
            group,
        })
    }

    /// The next connection as a client, where there is one now.
    fn accept(&mut self) -> Result<HubEvent, HubError>
        ensures whole { IfOk result IsWhole }
        ensures cause { HubCause self.old.faults self.new.faults result }
        ensures faultless { OnOk result (self.new.faults ≡ self.old.faults) }
        ensures names { IfOk result (ComesAs self.old.user self.old.group) }
        ensures keeps { (self.new.user ≡ self.old.user) × (self.new.group ≡ self.old.group) }
    {
        if self.next_number == u32::MAX {
            return Ok(HubEvent::Idle);
        }
        match self.listener.accept() {
            Ok((stream, _)) => self.admit(stream),
            Err(error) => {
                let kind = error.kind();
                if kind == ErrorKind::WouldBlock || kind == ErrorKind::Interrupted {
                    Ok(HubEvent::Idle)
                } else {
                    Err(self.fault())
                }
            }
        }
    }

    /// What the clients sent, from the one whose turn it is on. The memory is taken before anything
    /// is read.
    fn hear(&mut self) -> Result<HubEvent, HubError>
        ensures whole { IfOk result IsWhole }
        ensures cause { HubCause self.old.faults self.new.faults result }
        ensures faultless { OnOk result (self.new.faults ≡ self.old.faults) }
        ensures names { IfOk result (ComesAs self.old.user self.old.group) }
        ensures keeps { (self.new.user ≡ self.old.user) × (self.new.group ≡ self.old.group) }
    {
        let Ok(mut piece) = Vec::from_slice(self.alloc, &[0u8; PIECE]) else {
            return Err(HubError::Memory);
        };
        for _ in 0..self.clients.len() {
            if self.turn >= self.clients.len() {
                self.turn = 0;
            }
            let Some(client) = self.clients.get_mut(self.turn) else {
                break;
            };
            self.turn += 1;
            let number = client.number;
            let Some(count) = client.hear(piece.as_mut_slice()) else {
                continue;
            };
            if count == 0 {
                return Ok(self.forget(number));
            }
            piece.truncate(count);
            return Ok(HubEvent::Bytes {
                client: number,
                bytes: Text::from_vec(piece),
            });
        }
        Ok(HubEvent::Idle)
    }

    /// Drops a client, and tells that it has closed.
    fn forget(&mut self, number: u32) -> HubEvent
        ensures closed { result ≡ HubEvent.Closed number }
        ensures faults { self.new.faults ≡ self.old.faults }
        ensures keeps { (self.new.user ≡ self.old.user) × (self.new.group ≡ self.old.group) }
    {
        self.clients.retain(|client| client.number != number);
        HubEvent::Closed { client: number }
    }
}

impl Hub for UnixHub {
    ghost events = { λ _. None };

    ghost sent = { λ _. None };

    ghost faults = { λ hub. hub.faults };

    fn next(&mut self) -> Result<HubEvent, HubError>
        ensures gives { IfOk result (λ event. Gives None None event) }
        ensures whole { IfOk result IsWhole }
        ensures cause { HubCause self.old.faults self.new.faults result }

        // A call that gives an event counts no fault. Every client has the user and the group that
        // the hub was made with.
        ensures faultless { OnOk result (self.new.faults ≡ self.old.faults) }
        ensures names { IfOk result (ComesAs self.old.user self.old.group) }
        ensures keeps { (self.new.user ≡ self.old.user) × (self.new.group ≡ self.old.group) }
    {
        if let Some(number) = closed_client(&self.clients) {
            return Ok(self.forget(number));
        }
        match self.accept() {
            Ok(HubEvent::Idle) => self.hear(),
            other => other,
        }
    }

    fn send(&mut self, client: u32, bytes: &[u8]) -> Result<(), Failed>
        ensures ok { OnOk result (Sends None None client bytes.now) }
        ensures err { OnErr result (SendsFront None None client bytes.now) }
        ensures cause { HasCause self.old.faults self.new.faults result }

        // A client that has closed is no fault.
        ensures passes { IsOk result }
        ensures faultless { self.new.faults ≡ self.old.faults }
        ensures keeps { (self.new.user ≡ self.old.user) × (self.new.group ≡ self.old.group) }
    {
        for other in self.clients.iter_mut() {
            if other.number == client {
                other.tell(bytes);
            }
        }
        Ok(())
    }
}
