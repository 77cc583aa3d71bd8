ghost use Rattle.std.specs.Prelude.{◌≡◌, ◌<◌, ◌^◌, ◌↔◌, length, IsTrue, MatchBool};
ghost use Rattle.std.specs.List.{prefix_len};
ghost use Rattle.uci_text.specs.ByteClass as class;
ghost use Rattle.uci_text.specs.ByteClass.{is_in, AllIn, SplitsBehind, IsAtEndOr};
ghost use Rattle.uci_text.specs.Found.{BeginsOutside};

use lanes_scan::{all_name, all_printable, first_nul, plain_run};

/// What ends a plain run. The last places repeat the first.
const STOPS: [u8; 16] = *b" \t\r\x0b\x0c\n;#'\"\\     ";

/// What ends a run within double quotes.
const DOUBLE_QUOTE_STOPS: [u8; 16] = *b"\"\\\"\"\"\"\"\"\"\"\"\"\"\"\"\"";

/// A class of bytes.
#[derive(Clone, Copy)]
pub enum ByteClass {
    /// White space: a space, tab, CR, VT or FF.
    Space,
    /// White space, a newline or `;`.
    Blank,
    /// Any byte but a newline.
    InLine,
    /// Any byte but white space, a newline, `;` `#` `'` `"` and `\`.
    Plain,
    /// Any byte but `'`.
    Quotable,
    /// Any byte but `"` and `\`.
    DoubleQuotable,
    /// Any byte but the zero byte.
    NotZero,
    /// An ASCII letter, a digit or `_`.
    Name,
    /// An ASCII letter, a digit, `_` or `-`.
    PackageName,
    /// A byte from 33 to 126.
    Printable,
}

impl ByteClass {
    /// Whether the byte is of the class.
    pub fn contains(self, byte: u8) -> bool
        ensures { result ≡ is_in self byte }
    {
        match self {
            ByteClass::Space => is_space(byte),
            ByteClass::Blank => is_space(byte) || matches!(byte, b'\n' | b';'),
            ByteClass::InLine => byte != b'\n',
            ByteClass::Plain => !is_word_end(byte) && !matches!(byte, b'\'' | b'"' | b'\\'),
            ByteClass::Quotable => byte != b'\'',
            ByteClass::DoubleQuotable => !matches!(byte, b'"' | b'\\'),
            ByteClass::NotZero => byte != 0,
            ByteClass::Name => is_name_byte(byte),
            ByteClass::PackageName => is_name_byte(byte) || byte == b'-',
            ByteClass::Printable => byte.is_ascii_graphic(),
        }
    }

    /// The longest front whose bytes are of the class, and the rest.
    pub fn split(self, bytes: &[u8]) -> (&[u8], &[u8])
        ensures { SplitsBehind self bytes.now result.0.now result.1.now }
    {
        bytes.split_at(self.run(bytes))
    }

    /// How many bytes the longest front of the class has.
    fn run(self, bytes: &[u8]) -> usize
        ensures { result ≡ prefix_len (is_in self) bytes.now }
    {
        match self {
            ByteClass::Plain => plain_run(bytes, &STOPS),
            ByteClass::InLine => plain_run(bytes, &[b'\n'; 16]),
            ByteClass::Quotable => plain_run(bytes, &[b'\''; 16]),
            ByteClass::DoubleQuotable => plain_run(bytes, &DOUBLE_QUOTE_STOPS),
            ByteClass::NotZero => first_nul(bytes).unwrap_or(bytes.len()),
            ByteClass::Space
            | ByteClass::Blank
            | ByteClass::Name
            | ByteClass::PackageName
            | ByteClass::Printable => self.run_by_bytes(bytes),
        }
    }

    fn run_by_bytes(self, bytes: &[u8]) -> usize
        ensures { result ≡ prefix_len (is_in self) bytes.now }
    {
        for (at, byte) in bytes.iter().enumerate() {
            if !self.contains(*byte) {
                return at;
            }
        }
        bytes.len()
    }

    /// Whether all of the bytes are of the class.
    pub fn contains_all(self, bytes: &[u8]) -> bool
        ensures { IsTrue result ↔ AllIn self bytes.now }
    {
        match self {
            ByteClass::Name => all_name(bytes),
            ByteClass::Printable => all_printable(bytes),
            _ => {
                let (_, rest) = self.split(bytes);
                rest.is_empty()
            }
        }
    }
}

fn is_space(byte: u8) -> bool
    ensures { result ≡ class.is_space byte }
{
    matches!(byte, b' ' | b'\t' | b'\r' | 0x0b | 0x0c)
}

fn is_command_end(byte: u8) -> bool
    ensures { result ≡ class.ends_command byte }
{
    matches!(byte, b'\n' | b';' | b'#')
}

fn is_word_end(byte: u8) -> bool
    ensures { result ≡ class.ends_word byte }
{
    is_space(byte) || is_command_end(byte)
}

fn is_name_byte(byte: u8) -> bool
    ensures { result ≡ class.is_name_byte byte }
{
    byte.is_ascii_alphanumeric() || byte == b'_'
}

/// Whether a command ends here.
pub fn ends_command(rest: &[u8]) -> bool
    ensures { MatchBool result
        (IsAtEndOr class.ends_command rest.now)
        (BeginsOutside class.ends_command rest.now) }
{
    match rest.first() {
        Some(byte) => is_command_end(*byte),
        None => true,
    }
}

/// Whether a word ends here.
pub fn ends_word(rest: &[u8]) -> bool
    ensures { MatchBool result
        (IsAtEndOr class.ends_word rest.now)
        (BeginsOutside class.ends_word rest.now) }
{
    match rest.first() {
        Some(byte) => is_word_end(*byte),
        None => true,
    }
}
