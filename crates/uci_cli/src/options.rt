ghost use Rattle.std.specs.Prelude.{◌≡◌, IfOk};
ghost use Rattle.uci_cli.specs.Options as spec;

use plane_io::{Memory, Text};
use std::alloc::Global;

/// The folder of the packages where the words name none.
const USUAL_FILES: &[u8] = b"/etc/config";

/// The folder of staged changes where the words name none.
const USUAL_STAGED: &[u8] = b"/tmp/.uci";

/// What stands between the items of a list where the words say nothing.
const USUAL_BETWEEN: &[u8] = b" ";

/// What the options in front of a command say.
#[derive(Drop)]
pub struct Options {
    /// The folder of the packages.
    pub files: Text,
    /// The folder of staged changes.
    pub staged: Text,
    /// The file that the input is read from, where it is not the standard input.
    pub input: Option<Text>,
    /// What stands between the items of a list.
    pub between: Text,
    /// Whether nothing is written to the error output.
    pub quiet: bool,
    /// Whether `export` writes the names of anonymous sections.
    pub names: bool,
    /// Whether `show` calls anonymous sections by their names.
    pub by_name: bool,
    /// Whether `import` merges.
    pub merge: bool,
}

/// An option that stands alone.
#[derive(Clone, Copy)]
pub enum Flag {
    /// `-q`
    Quiet,
    /// `-n`
    Names,
    /// `-N`
    NoNames,
    /// `-X`
    ByName,
    /// `-m`
    Merge,
}

/// An option that takes the word behind it, whatever that is.
#[derive(Clone, Copy)]
pub enum Field {
    /// `-c DIR`
    Files,
    /// `-t DIR`
    Staged,
    /// `-d STR`
    Between,
    /// `-f FILE`
    Input,
}

impl Flag {
    /// The flag that a word is.
    pub fn of(word: &[u8]) -> Option<Flag>
        ensures { result ≡ spec.flag_of word.now }
    {
        if word == b"-q".as_slice() {
            Some(Flag::Quiet)
        } else if word == b"-n".as_slice() {
            Some(Flag::Names)
        } else if word == b"-N".as_slice() {
            Some(Flag::NoNames)
        } else if word == b"-X".as_slice() {
            Some(Flag::ByName)
        } else if word == b"-m".as_slice() {
            Some(Flag::Merge)
        } else {
            None
        }
    }
}

impl Field {
    /// The option with a value that a word is.
    pub fn of(word: &[u8]) -> Option<Field>
        ensures { result ≡ spec.field_of word.now }
    {
        if word == b"-c".as_slice() {
            Some(Field::Files)
        } else if word == b"-t".as_slice() {
            Some(Field::Staged)
        } else if word == b"-d".as_slice() {
            Some(Field::Between)
        } else if word == b"-f".as_slice() {
            Some(Field::Input)
        } else {
            None
        }
    }
}

impl Options {
    /// The options of a command without any.
    pub fn usual(alloc: Global) -> Result<Options, Memory>
        ensures { IfOk result (λ options. options ≡ spec.usual) }
    {
        Ok(Options {
            files: Text::from_bytes(alloc, USUAL_FILES)?,
            staged: Text::from_bytes(alloc, USUAL_STAGED)?,
            input: None,
            between: Text::from_bytes(alloc, USUAL_BETWEEN)?,
            quiet: false,
            names: false,
            by_name: false,
            merge: false,
        })
    }

    /// Takes a flag; the last one counts.
    pub fn set(&mut self, flag: Flag)
        ensures { self.new ≡ spec.with_flag flag self.old }
    {
        match flag {
            Flag::Quiet => self.quiet = true,
            Flag::Names => self.names = true,
            Flag::NoNames => self.names = false,
            Flag::ByName => self.by_name = true,
            Flag::Merge => self.merge = true,
        }
    }

    /// Takes an option with its value; the last one counts.
    pub fn put(&mut self, field: Field, value: Text)
        ensures { self.new ≡ spec.with_field field value self.old }
    {
        match field {
            Field::Files => self.files = value,
            Field::Staged => self.staged = value,
            Field::Between => self.between = value,
            Field::Input => self.input = Some(value),
        }
    }
}
