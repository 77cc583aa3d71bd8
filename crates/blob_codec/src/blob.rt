use plane_io::Text;
use sqlite_items::Items;

/// How many arrays and tables may stand within one another.
pub const MOST_LEVELS: u8 = 32;

/// A value of the message bus.
#[derive(Drop)]
#[cycle(blob)]
pub enum Blob {
    /// No value: JSON's `null`.
    Unspec,
    /// Values one after another. Their names are mostly empty.
    Array(Items<Attr>),
    /// Values by name.
    Table(Items<Attr>),
    /// Bytes without a zero byte.
    Str(Text),
    I64(i64),
    I32(i32),
    I16(i16),
    /// A byte, or a truth value, which is true where it is not 0.
    I8(i8),
}

/// A value with its name, bytes without a zero byte.
#[derive(Drop)]
#[cycle(blob)]
pub struct Attr {
    pub name: Text,
    pub value: Blob,
}
