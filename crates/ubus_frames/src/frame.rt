ghost use Rattle.std.specs.Prelude.{◌≡◌};
ghost use Rattle.ubus_frames.specs.Frame.{bare};

use blob_codec::Attr;
use plane_io::Text;
use sqlite_items::Items;

/// How many bytes a frame has at most behind its first eight.
pub const MOST_BLOB: u32 = 1_048_576;

/// A message of the bus.
#[derive(Drop)]
pub struct Frame {
    /// The type: 0 HELLO, 1 STATUS, 2 DATA, 3 PING, 4 LOOKUP, 5 INVOKE, 6 ADD_OBJECT, 7
    /// REMOVE_OBJECT, 8 SUBSCRIBE, 9 UNSUBSCRIBE, 10 NOTIFY, 11 MONITOR. Others are taken too.
    pub kind: u8,
    /// The sequence, by which a reply names its request.
    pub seq: u16,
    pub peer: u32,
    pub status: Option<u32>,
    /// The path of an object, bytes without a zero byte.
    pub path: Option<Text>,
    /// The number of an object.
    pub id: Option<u32>,
    /// The name of a method, bytes without a zero byte.
    pub method: Option<Text>,
    /// The number of an object's type.
    pub objtype: Option<u32>,
    pub signature: Option<Items<Attr>>,
    pub payload: Option<Items<Attr>>,
    /// The number of the object that is subscribed to.
    pub target: Option<u32>,
    pub active: Option<bool>,
    pub no_reply: Option<bool>,
    pub subscribers: Option<Items<u32>>,
    pub user: Option<Text>,
    pub group: Option<Text>,
}

impl Frame {
    /// A frame without attributes.
    pub fn new(kind: u8, seq: u16, peer: u32) -> Frame
        ensures { result ≡ bare kind seq peer }
    {
        Frame {
            kind,
            seq,
            peer,
            status: None,
            path: None,
            id: None,
            method: None,
            objtype: None,
            signature: None,
            payload: None,
            target: None,
            active: None,
            no_reply: None,
            subscribers: None,
            user: None,
            group: None,
        }
    }
}
