ghost use Rattle.std.specs.Prelude.{◌≡◌};
ghost use Rattle.ubus_acl.specs.Record as spec;

use crate::fits_front;
use plane_io::{Items, Text};

/// Objects by a pattern of their paths, and patterns of the methods that may be called.
#[derive(Drop)]
pub struct Access {
    pub object: Text,
    pub methods: Items<Text>,
}

/// What the clients of a user, or of a group, may do. All texts but the user and the group are
/// patterns, in which a last `*` stands for any rest.
#[derive(Drop)]
pub struct Record {
    pub user: Option<Text>,
    pub group: Option<Text>,
    /// What may be called.
    pub access: Items<Access>,
    /// The paths of objects that may be added.
    pub publish: Items<Text>,
    /// The paths of objects that may be subscribed to.
    pub subscribe: Items<Text>,
    /// The ids of events that may be sent.
    pub send: Items<Text>,
    /// The patterns of ids that may be listened for.
    pub listen: Items<Text>,
}

impl Record {
    /// Whether the record is for clients of this user and this group: one of them is enough.
    pub fn is_for(&self, user: &[u8], group: &[u8]) -> bool
        ensures { result ≡ spec.is_for user.now group.now self.now }
    {
        is_named(&self.user, user) || is_named(&self.group, group)
    }

    /// Whether the record lets a client of this user and this group call a method of the objects of
    /// a path.
    pub(crate) fn lets_call(&self, user: &[u8], group: &[u8], object: &[u8], method: &[u8]) -> bool
        ensures { result ≡ spec.lets (spec.allows_call object.now method.now) user.now group.now
            self.now }
    {
        self.is_for(user, group) && self.allows_call(object, method)
    }

    /// Whether the record lets a client of this user and this group add objects of a path.
    pub(crate) fn lets_publish(&self, user: &[u8], group: &[u8], path: &[u8]) -> bool
        ensures { result ≡ spec.lets (spec.allows_publish path.now) user.now group.now self.now }
    {
        self.is_for(user, group) && some_fit(&self.publish, path)
    }

    /// Whether the record lets a client of this user and this group subscribe to objects of a path.
    pub(crate) fn lets_subscribe(&self, user: &[u8], group: &[u8], path: &[u8]) -> bool
        ensures { result ≡ spec.lets (spec.allows_subscribe path.now) user.now group.now self.now }
    {
        self.is_for(user, group) && some_fit(&self.subscribe, path)
    }

    /// Whether the record lets a client of this user and this group send events of an id.
    pub(crate) fn lets_send(&self, user: &[u8], group: &[u8], id: &[u8]) -> bool
        ensures { result ≡ spec.lets (spec.allows_send id.now) user.now group.now self.now }
    {
        self.is_for(user, group) && some_fit(&self.send, id)
    }

    /// Whether the record lets a client of this user and this group listen by a pattern.
    pub(crate) fn lets_listen(&self, user: &[u8], group: &[u8], pattern: &[u8]) -> bool
        ensures { result ≡ spec.lets (spec.allows_listen pattern.now) user.now group.now self.now }
    {
        self.is_for(user, group) && some_fit(&self.listen, pattern)
    }

    /// Whether the record allows calls of this method of the objects of this path.
    pub fn allows_call(&self, object: &[u8], method: &[u8]) -> bool
        ensures { result ≡ spec.allows_call object.now method.now self.now }
    {
        self.access
            .as_slice()
            .iter()
            .any(|access| access.allows(object, method))
    }
}

impl Access {
    fn allows(&self, object: &[u8], method: &[u8]) -> bool
        ensures { result ≡ spec.is_allowed object.now method.now self.now }
    {
        fits_front(self.object.as_bytes(), object) && some_fit(&self.methods, method)
    }
}

fn is_named(name: &Option<Text>, client: &[u8]) -> bool
    ensures { result ≡ spec.is_named client.now name.now }
{
    match name {
        Some(text) => text.as_bytes() == client,
        None => false,
    }
}

/// Whether one of the patterns fits.
fn some_fit(patterns: &Items<Text>, text: &[u8]) -> bool
    ensures { result ≡ spec.some_fit patterns.now text.now }
{
    patterns
        .as_slice()
        .iter()
        .any(|pattern| fits_front(pattern.as_bytes(), text))
}
