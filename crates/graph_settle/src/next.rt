//! The call that is to be made next, and what it leaves.
ghost use Rattle.std.specs.Prelude.{◌≡◌, ◌∷◌, Some, slice_get, true};
ghost use Rattle.kern_model.specs.Kernel.{object_of, after_call};
ghost use Rattle.kern_calls.specs.Due.{due_count};
ghost use Rattle.kern_calls.specs.Upper as upper;
ghost use Rattle.graph_rules.specs.Calls.{calls_in};
ghost use Rattle.given_objects.specs.Gifts.{AreGifts, has_place};
ghost use Rattle.graph_settle.specs.SettlingState.{held_of, wanted_of, calls_of, noted_call};
ghost use Rattle.graph_settle.specs.SettlingState.{IsReady};
ghost use Rattle.graph_settle.specs.SettlingState.{IsAlike};

use crate::settling::GraphSettling;
use dev_graph::Graph;
use given_objects::GivenObjects;
use kern_model::{Call, Object};

impl GraphSettling {
    /// The call that is to be made next: the first take of an address or a route, else the first
    /// call of devices, else the first put of an address or a route.
    pub fn next_call(&self) -> Option<Call>
        requires { IsReady self.now }
        ensures { result ≡ slice_get (calls_of self.now) 0 }
    {
        are_gifts(&self.gifts);
        if let Some(object) = self.gifts.first_take() {
            return Some(self.graph.take_of(object));
        }
        if let Some(call) = device_call(&self.graph) {
            return Some(call);
        }
        match self.gifts.first_put() {
            Some(object) => Some(Call::Put(object)),
            None => None,
        }
    }

    /// The next call was made.
    pub fn did(&mut self, call: &Call)
        requires ready { IsReady self.old }
        requires next { slice_get (calls_of self.old) 0 ≡ Some call.now }
        ensures held { held_of self.new ≡ after_call (held_of self.old) call.now }
        ensures left { calls_of self.old ≡ call.now ∷ calls_of self.new }
        ensures stays { IsAlike self.old self.new }
        ensures may_lose_link { self.new.may_lose_link ≡ self.old.may_lose_link }
        ensures ready { IsReady self.new }
    {
        are_gifts(&self.gifts);
        if is_upper(&call.object()) {
            note(&mut self.gifts, call);
        } else {
            self.graph.did(call);
        }
    }

    /// The calls that come next are put in order, so that each is found at once. Nothing else is
    /// seen of it.
    pub(crate) fn prepare(&mut self)
        ensures { self.new ≡ self.old }
    {
        self.graph.prepare();
        self.gifts.prepare();
    }

    /// How many objects are in one of what is held and what is wanted, and not in the other.
    pub fn due(&self) -> u64
        requires { IsReady self.now }
        ensures { result ≡ due_count (held_of self.now) (wanted_of self.now) }
    {
        are_gifts(&self.gifts);
        let _gifts = self.gifts.len();
        let below = self.graph.due();
        let above = self.gifts.due();
        below + above
    }
}

/// What is kept as gifts are gifts: of distinct objects, each an address or a route of its form.
pub(crate) fn are_gifts(gifts: &GivenObjects)
    ensures { AreGifts gifts.now }
{
    let _count = gifts.len();
}

/// The first of the calls of devices.
fn device_call(graph: &Graph) -> Option<Call>
    ensures { result ≡ slice_get (calls_in graph.now) 0 }
{
    match graph.next_take() {
        Some(call) => Some(call),
        None => graph.next_put(),
    }
}

/// Whether an object is an address or a route.
fn is_upper(object: &Object) -> bool
    ensures { result ≡ upper.is_upper object.now }
{
    matches!(object, Object::Address { .. } | Object::Route(_))
}

/// The call of an address or a route was made.
fn note(gifts: &mut GivenObjects, call: &Call)
    requires { has_place gifts.old (object_of call.now) ≡ true }
    ensures { gifts.new ≡ noted_call gifts.old call.now }
{
    match call {
        Call::Take { object, .. } => gifts.note(object, false),
        Call::Put(object) => gifts.note(object, true),
    }
}
