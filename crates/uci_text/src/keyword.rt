ghost use Rattle.std.specs.Prelude.{◌≡◌, ◌⊎◌, ◌↔◌, List, ℕ, IfSome, IfNone, IsTrue};
ghost use Rattle.uci_text.specs.declared.keyword.Keyword.{Keyword};
ghost use Rattle.uci_text.specs.Table.{Begins, IsCount, IsNameOf, AreNamed};

use crate::byte_class::ByteClass;

/// What kind of command a line is.
#[derive(Clone, Copy)]
pub enum Keyword {
    /// `package` or `p`.
    Package,
    /// `config` or `c`.
    Config,
    /// `option` or `o`.
    Item,
    /// `list` or `l`.
    ListItem,
}

fn is_either(word: &[u8], long: &[u8], short: &[u8]) -> bool
    ensures { IsTrue result ↔ ((word.now ≡ long.now) ⊎ (word.now ≡ short.now)) }
{
    word == long || word == short
}

impl Keyword {
    /// The kind of command that the word begins.
    pub fn of(word: &[u8]) -> Option<Keyword>
        ensures some { IfSome result (λ keyword. Begins keyword word.now) }
        ensures none { IfNone result ((keyword : Keyword) → Begins keyword word.now → ⊥) }
    {
        if is_either(word, b"package", b"p") {
            Some(Keyword::Package)
        } else if is_either(word, b"config", b"c") {
            Some(Keyword::Config)
        } else if is_either(word, b"option", b"o") {
            Some(Keyword::Item)
        } else if is_either(word, b"list", b"l") {
            Some(Keyword::ListItem)
        } else {
            None
        }
    }

    /// Whether a command of this kind may have so many words.
    pub fn takes(self, words: usize) -> bool
        ensures { IsTrue result ↔ IsCount self words }
    {
        match self {
            Keyword::Package => words == 2,
            Keyword::Config | Keyword::Item | Keyword::ListItem => words == 2 || words == 3,
        }
    }

    /// Whether the arguments are the names that they stand for.
    pub fn allows(self, first: &[u8], second: &[u8]) -> bool
        ensures { IsTrue result ↔ AreNamed self first.now second.now }
    {
        match self {
            Keyword::Package => is_name(ByteClass::PackageName, first),
            Keyword::Config => is_name(ByteClass::Printable, first)
                && ByteClass::Name.contains_all(second),
            Keyword::Item | Keyword::ListItem => is_name(ByteClass::Name, first),
        }
    }
}

/// Whether the bytes are one or more of the class: the name of a section or an option where it is
/// `Name`, of a package where it is `PackageName`, and a section's type where it is `Printable`.
pub fn is_name(class: ByteClass, bytes: &[u8]) -> bool
    ensures { IsTrue result ↔ IsNameOf class bytes.now }
{
    !bytes.is_empty() && class.contains_all(bytes)
}
