ghost use Rattle.std.specs.Prelude.{◌≡◌};
ghost use Rattle.ubus_frames.specs.Value.{kind_of, put, put_number, put_text, put_attrs, put_truth};

use crate::Frame;
use blob_codec::Attr;
use plane_io::Text;
use sqlite_items::Items;

/// What an attribute holds, by its id.
#[derive(Clone, Copy)]
pub(crate) enum Kind {
    OneNumber,
    OneText,
    AttrList,
    OneByte,
    NumberList,
}

/// The value of an attribute.
#[derive(Drop)]
pub(crate) enum Value {
    Number(u32),
    Words(Text),
    Attrs(Items<Attr>),
    Truth(bool),
    Numbers(Items<u32>),
}

/// What the attribute with this id holds.
pub(crate) fn kind_of_id(id: u8) -> Option<Kind>
    ensures { result ≡ kind_of id }
{
    match id {
        1 | 3 | 5 | 8 => Some(Kind::OneNumber),
        2 | 4 | 12 | 13 => Some(Kind::OneText),
        6 | 7 => Some(Kind::AttrList),
        9 | 10 => Some(Kind::OneByte),
        11 => Some(Kind::NumberList),
        _ => None,
    }
}

impl Frame {
    /// Puts the value of the attribute with this id in place of the one that was there.
    pub(crate) fn put(&mut self, id: u8, value: Value)
        ensures { self.new ≡ put id value self.old }
    {
        match value {
            Value::Number(number) => self.put_number(id, number),
            Value::Words(text) => self.put_text(id, text),
            Value::Attrs(attrs) => self.put_attrs(id, attrs),
            Value::Truth(truth) => self.put_truth(id, truth),
            Value::Numbers(numbers) => self.subscribers = Some(numbers),
        }
    }
}

impl Frame {
    fn put_number(&mut self, id: u8, number: u32)
        ensures { self.new ≡ put_number id number self.old }
    {
        match id {
            1 => self.status = Some(number),
            3 => self.id = Some(number),
            5 => self.objtype = Some(number),
            8 => self.target = Some(number),
            _ => {}
        }
    }

    fn put_text(&mut self, id: u8, text: Text)
        ensures { self.new ≡ put_text id text self.old }
    {
        match id {
            2 => self.path = Some(text),
            4 => self.method = Some(text),
            12 => self.user = Some(text),
            13 => self.group = Some(text),
            _ => {}
        }
    }

    fn put_attrs(&mut self, id: u8, attrs: Items<Attr>)
        ensures { self.new ≡ put_attrs id attrs self.old }
    {
        match id {
            6 => self.signature = Some(attrs),
            7 => self.payload = Some(attrs),
            _ => {}
        }
    }

    fn put_truth(&mut self, id: u8, truth: bool)
        ensures { self.new ≡ put_truth id truth self.old }
    {
        match id {
            9 => self.active = Some(truth),
            10 => self.no_reply = Some(truth),
            _ => {}
        }
    }
}
