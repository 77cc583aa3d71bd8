ghost use Rattle.std.specs.Prelude.{◌≡◌, ◌≤◌, ◌+◌, ◌++◌, [], OnOk, OnErr, drop, length};
ghost use Rattle.std.specs.Prelude.{slice_range};
ghost use Rattle.http_requests.specs.Asked as spec;

use crate::Request;
use plane_io::Memory;
use std::alloc::Global;
use std::marker::Model;

/// The bytes of a connection that were read and are still to be answered.
///
/// A request that is taken off moves no byte: what is left moves to the front before more is added.
#[derive(Drop)]
pub struct Held {
    bytes: Vec<u8>,
    taken: usize,
}

impl Model for Held {
    ghost use Rattle.std.specs.Prelude.{ℕ, ◌≤◌, List, drop, length};

    ghost Value = { List ℕ };

    ghost view = { λ held. drop held.taken held.bytes.items };

    ghost invariant = { λ held. held.taken ≤ length held.bytes.items };
}

impl Held {
    /// No bytes. It takes no memory.
    pub fn new(alloc: Global) -> Held
        ensures { result ≡ [] }
    {
        Held {
            bytes: Vec::new(alloc),
            taken: 0,
        }
    }

    /// The bytes.
    pub fn bytes(&self) -> &[u8]
        ensures { result.now ≡ self.now }
    {
        let (_taken, left) = self.bytes.as_slice().split_at(self.taken);
        left
    }

    /// The body of the request in front.
    pub fn body(&self, request: &Request) -> &[u8]
        requires { request.now.head_size + request.now.body_size ≤ length self.now }
        ensures { result.now ≡ spec.body_of request.now self.now }
    {
        let (_head, rest) = self.bytes().split_at(request.head_size);
        let (body, _behind) = rest.split_at(request.body_size);
        body
    }

    /// Takes the request in front off.
    pub fn take_off(&mut self, request: &Request)
        requires { request.now.head_size + request.now.body_size ≤ length self.old }
        ensures { self.new ≡ spec.behind request.now self.old }
    {
        self.taken += request.head_size;
        self.taken += request.body_size;
    }

    /// Adds a piece behind the bytes.
    ///
    /// # Errors
    ///
    /// Want of memory, which changes nothing.
    pub(crate) fn add(&mut self, piece: &[u8]) -> Result<(), Memory>
        ensures added { OnOk result (self.new ≡ self.old ++ piece.now) }
        ensures kept { OnErr result (self.new ≡ self.old) }
    {
        remove_front(&mut self.bytes, self.taken);
        self.taken = 0;
        self.bytes.extend_from_slice(piece)?;
        Ok(())
    }
}

/// Removes so many bytes in front.
fn remove_front(bytes: &mut Vec<u8>, count: usize)
    requires { count ≤ length bytes.old.items }
    ensures { bytes.new.items ≡ drop count bytes.old.items }
{
    if count == 0 {
        return;
    }
    let end = bytes.len();
    bytes.copy_within(count..end, 0);
    bytes.truncate(end - count);
}
