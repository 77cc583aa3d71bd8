use blob_codec::Attr;
use plane_io::Text;
use sqlite_items::Items;

/// A client, with the user and the group that it was given.
#[derive(Drop)]
pub struct Client {
    pub number: u32,
    pub user: Text,
    pub group: Text,
}

/// An object, with the number of the client that owns it.
#[derive(Drop)]
pub struct Object {
    pub number: u32,
    /// 0 where it is no client's.
    pub owner: u32,
    pub path: Option<Text>,
    /// The number of its type, which is that of the first object of the type.
    pub objtype: u32,
    /// The signature of its type.
    pub signature: Items<Attr>,
}

/// An object that is told of another one.
#[derive(Clone, Copy)]
pub struct Subscription {
    pub subscriber: u32,
    pub target: u32,
}

/// An object that is sent the events whose ids the pattern fits.
#[derive(Drop)]
pub struct Registration {
    pub object: u32,
    pub pattern: Text,
}

/// A call of a local object, handed out to be answered.
#[derive(Drop)]
pub struct LocalCall {
    pub caller: u32,
    pub seq: u16,
    pub object: u32,
    pub method: Text,
    pub args: Items<Attr>,
    /// The caller wants no reply.
    pub no_reply: bool,
}
