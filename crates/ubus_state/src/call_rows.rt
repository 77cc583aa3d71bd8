//! Open calls, found by caller and sequence.
ghost use Rattle.std.specs.Prelude.{◌≡◌, ◌==◌, ◌<◌, ◌≤◌, ◌+◌, ◌++◌, ◌∷◌, [], OnOk, OnErr, IfSome};
ghost use Rattle.std.specs.Prelude.{Some, None, false, if◌then◌else◌, filter, length, not, remove};
ghost use Rattle.std.specs.List.{find, list_any, position};
ghost use Rattle.std.specs.List.Sorted.{IsPartitionPoint};
ghost use Rattle.ubus_table.specs.Calls as spec;
ghost use Rattle.ubus_table.specs.Clients as clients;
ghost use Rattle.ubus_table.specs.Clients.{is_forgotten};
ghost use Rattle.ubus_table.specs.Objects.{is_on};
ghost use Rattle.ubus_state.specs.declared.calls.OpenCall.{OpenCall as CallRow};
ghost use Rattle.ubus_state.specs.Among.{calls_but};
ghost use Rattle.ubus_state.specs.Calls.{IsTied, call_number, call_of, calls_of, has_name};
ghost use Rattle.ubus_state.specs.Calls.{is_before};
ghost use Rattle.ubus_state.specs.Rising.{Rise};

use crate::calls::{OpenCall, drop_calls_among, drop_calls_from, drop_calls_on, forget_calls};
use crate::drops::is_among;
use crate::rows::is_local;
use plane_io::Memory;
use std::alloc::Global;
use std::collections::BTreeSet;
use std::collections::btree_set::Range;

/// Open calls as they were opened, found by caller and sequence.
#[derive(Drop)]
pub struct CallRows {
    /// By rising number.
    pub rows: Vec<OpenCall>,
    /// The same calls by caller, sequence and number.
    pub by_name: BTreeSet<OpenCall>,
    /// The number of the next one.
    pub next: u64,
    pub ghost tied: { IsTied rows.items by_name.keys next },
}

impl CallRows {
    /// No calls yet.
    pub fn new(alloc: Global) -> CallRows
        ensures { result.rows.items ≡ [] }
    {
        CallRows {
            rows: Vec::new(alloc),
            by_name: BTreeSet::new(alloc),
            next: 0,
        }
    }

    /// The calls of a caller with a sequence, as they were opened.
    pub fn named(&self, caller: u32, seq: u16) -> Range<'_, OpenCall>
        ensures { result ≡ filter (has_name caller seq) self.now.rows.items }
    {
        let first = bound(caller, seq, 0);
        let last = bound(caller, seq, self.next);
        self.by_name.range(first..last)
    }

    /// Whether the caller has an open call with the sequence.
    pub fn is_open(&self, caller: u32, seq: u16) -> bool
        ensures { result ≡ spec.is_open (calls_of self.now.rows.items) caller seq }
    {
        self.named(caller, seq).next().is_some()
    }

    /// Where the call of a number stands.
    pub fn place_of(&self, number: u64) -> Option<usize>
        ensures place { result
            ≡ position (λ (call : CallRow). call.number == number) self.now.rows.items }
        ensures within { IfSome result (λ place. place < length self.now.rows.items) }
    {
        place_numbered(&self.rows, number)
    }

    /// Whether a call was handed out to this local object, and is not answered yet.
    pub fn is_handed_out(&self, caller: u32, seq: u16, object: u32) -> bool
        ensures { result ≡ list_any (clients.is_handed_out caller seq object)
            (calls_of self.now.rows.items) }
    {
        self.handed_out_call(caller, seq, object).is_some()
    }

    /// Where the call stands that was handed out to this local object.
    pub fn handed_out(&self, caller: u32, seq: u16, object: u32) -> Option<usize>
        ensures place { result ≡ position (clients.is_handed_out caller seq object)
            (calls_of self.now.rows.items) }
        ensures within { IfSome result (λ place. place < length self.now.rows.items) }
    {
        match self.handed_out_call(caller, seq, object) {
            Some(call) => self.place_of(call.number),
            None => None,
        }
    }

    fn handed_out_call(&self, caller: u32, seq: u16, object: u32) -> Option<OpenCall>
        ensures { result ≡ find (λ (call : CallRow).
            clients.is_handed_out caller seq object (call_of call)) self.now.rows.items }
    {
        for call in self.named(caller, seq) {
            if is_handed_out(call, caller, seq, object) {
                return Some(*call);
            }
        }
        None
    }

    /// Adds a call. Where there is not enough memory, all stays.
    pub fn push(&mut self, call: OpenCall) -> Result<(), Memory>
        ensures ok { OnOk result (calls_of self.new.rows.items
            ≡ calls_of self.old.rows.items ++ call_of call ∷ []) }
        ensures rows { OnOk result (self.new.rows.items
            ≡ self.old.rows.items ++ record call { number = self.old.next } ∷ []) }
        ensures next { OnOk result (self.new.next ≡ self.old.next + 1) }
        ensures err { OnErr result (self.new.rows.items ≡ self.old.rows.items) }
    {
        if self.next == u64::MAX {
            return Err(Memory);
        }
        let row = OpenCall {
            caller: call.caller,
            seq: call.seq,
            number: self.next,
            object: call.object,
            no_reply: call.no_reply,
        };
        self.rows.reserve(1)?;
        self.by_name.insert(row)?;
        self.rows.push_reserved(row);
        self.next += 1;
        Ok(())
    }

    /// Adds calls. Where there is not enough memory, all stays.
    pub fn push_all(&mut self, calls: &[OpenCall]) -> Result<(), Memory>
        ensures ok { OnOk result (calls_of self.new.rows.items
            ≡ calls_of self.old.rows.items ++ calls_of calls.now) }
        ensures err { OnErr result (self.new.rows.items ≡ self.old.rows.items) }
    {
        let first = self.next;
        for call in calls {
            let Ok(()) = self.push(*call) else {
                self.drop_from(first);
                return Err(Memory);
            };
        }
        Ok(())
    }

    /// Drops the calls from a number on.
    fn drop_from(&mut self, number: u64)
        ensures { self.new.rows.items ≡ filter (is_before number) self.old.rows.items }
    {
        drop_calls_from(&mut self.rows, number);
        self.by_name.retain(|call| call.number < number);
    }

    /// Drops the call at a place, where there is one.
    pub fn remove(&mut self, place: usize)
        ensures { calls_of self.new.rows.items ≡ remove (calls_of self.old.rows.items) place }
    {
        if place < self.rows.len() {
            self.take(place);
        }
    }

    fn take(&mut self, place: usize)
        requires { place < length self.old.rows.items }
        ensures { self.new.rows.items ≡ remove self.old.rows.items place }
    {
        let call = self.rows.remove(place);
        self.by_name.remove(&call);
    }

    /// Drops the calls on an object.
    pub fn drop_on(&mut self, number: u32)
        ensures { calls_of self.new.rows.items
            ≡ filter (λ call. not (is_on number call)) (calls_of self.old.rows.items) }
    {
        drop_calls_on(&mut self.rows, number);
        self.by_name.retain(|call| call.object != number);
    }

    /// Drops the calls on the objects of these numbers.
    pub fn drop_among(&mut self, numbers: &[u32])
        ensures { calls_of self.new.rows.items
            ≡ calls_but numbers.now (calls_of self.old.rows.items) }
    {
        drop_calls_among(&mut self.rows, numbers);
        self.by_name.retain(|call| !is_among(numbers, call.object));
    }

    /// Forgets the calls of a client, but for those that were handed out.
    pub fn forget(&mut self, client: u32)
        ensures { calls_of self.new.rows.items
            ≡ filter (λ call. not (is_forgotten client call)) (calls_of self.old.rows.items) }
    {
        forget_calls(&mut self.rows, client);
        self.by_name
            .retain(|call| !(call.caller == client && !is_local(call.object)));
    }
}

/// What stands before, or after, the calls of a caller with a sequence.
fn bound(caller: u32, seq: u16, number: u64) -> OpenCall
    ensures { result ≡ record
        { caller = caller; seq = seq; number = number; object = 0; no_reply = false } }
{
    OpenCall {
        caller,
        seq,
        number,
        object: 0,
        no_reply: false,
    }
}

fn is_handed_out(call: &OpenCall, caller: u32, seq: u16, object: u32) -> bool
    ensures { result ≡ clients.is_handed_out caller seq object (call_of call.now) }
{
    call.caller == caller && call.seq == seq && (call.object == object && is_local(object))
}

fn place_numbered(calls: &[OpenCall], number: u64) -> Option<usize>
    requires { Rise call_number calls.now }
    ensures place { result ≡ position (λ (call : CallRow). call.number == number) calls.now }
    ensures within { IfSome result (λ place. place < length calls.now) }
{
    let place = lower_calls(calls, number);
    match calls.get(place) {
        Some(call) => place_if(call.number == number, place),
        None => None,
    }
}

/// The place, where it is the right one.
pub(crate) fn place_if(is_right: bool, place: usize) -> Option<usize>
    ensures { result ≡ (if is_right then Some place else None) }
{
    if is_right { Some(place) } else { None }
}

/// How many calls have lower numbers.
fn lower_calls(calls: &[OpenCall], number: u64) -> usize
    requires { Rise call_number calls.now }
    ensures { IsPartitionPoint (λ (call : CallRow). call.number < number)
        (λ (call : CallRow). number ≤ call.number) calls.now result }
{
    calls.partition_point(|call| call.number < number)
}
