ghost use Rattle.std.specs.Prelude.{◌≡◌, [], ◌∷◌, if◌then◌else◌};
ghost use Rattle.uci_delta.specs.Quoting as spec;

use uci_text::ByteClass;

/// How a byte of words stands.
#[derive(Clone, Copy)]
pub enum Quoting {
    /// Outside quotes.
    Bare,
    /// Behind a backslash outside quotes.
    BarePair,
    /// Between single quotes.
    Single,
    /// Between double quotes.
    Double,
    /// Behind a backslash between double quotes.
    DoublePair,
}

impl Quoting {
    /// How a byte stands that comes behind this one.
    pub fn behind(self, byte: u8) -> Quoting
        ensures { result ≡ spec.behind self byte }
    {
        match (self, byte) {
            (Quoting::Bare, b'\'') => Quoting::Single,
            (Quoting::Bare, b'"') => Quoting::Double,
            (Quoting::Bare, b'\\') => Quoting::BarePair,
            (Quoting::Single, b'\'') | (Quoting::Double, b'"') => Quoting::Bare,
            (Quoting::Double, b'\\') => Quoting::DoublePair,
            (Quoting::BarePair, _) => Quoting::Bare,
            (Quoting::DoublePair, _) => Quoting::Double,
            (unchanged, _) => unchanged,
        }
    }

    /// Whether the byte is a newline that stands in no piece of a word.
    pub fn is_cut(self, byte: u8) -> bool
        ensures { result ≡ spec.is_cut self byte }
    {
        matches!(self, Quoting::Bare) && byte == b'\n'
    }

    /// Whether the byte ends a word.
    pub fn ends(self, byte: u8) -> bool
        ensures { result ≡ spec.ends self byte }
    {
        matches!(self, Quoting::Bare) && (ByteClass::Blank.contains(byte) || byte == b'#')
    }

    /// Whether the byte belongs to the value of its word.
    pub fn keeps(self, byte: u8) -> bool
        ensures { spec.kept self byte ≡ (if result then byte ∷ [] else []) }
    {
        match self {
            Quoting::Bare => !matches!(byte, b'\'' | b'"' | b'\\'),
            Quoting::BarePair | Quoting::DoublePair => byte != b'\n',
            Quoting::Single => byte != b'\'',
            Quoting::Double => !matches!(byte, b'"' | b'\\'),
        }
    }
}
