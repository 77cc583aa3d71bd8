ghost use Rattle.std.specs.Prelude.{◌≡◌};
ghost use Rattle.uci_cli.specs.Command.{keyword_of, verb_of};

/// What a command that stages a change does to the place that its word names.
#[derive(Clone, Copy)]
pub enum Verb {
    /// `set PATH=VALUE`
    Set,
    /// `add_list PATH=ITEM`
    AddList,
    /// `del_list PATH=ITEM`
    DelList,
    /// `delete PATH`
    Delete,
    /// `rename PATH=NAME`
    Rename,
    /// `reorder PATH=PLACE`
    Reorder,
}

impl Verb {
    /// The verb that a word is.
    pub fn of(word: &[u8]) -> Option<Verb>
        ensures { result ≡ verb_of word.now }
    {
        if word == b"set".as_slice() {
            Some(Verb::Set)
        } else if word == b"add_list".as_slice() {
            Some(Verb::AddList)
        } else if word == b"del_list".as_slice() {
            Some(Verb::DelList)
        } else if word == b"delete".as_slice() {
            Some(Verb::Delete)
        } else if word == b"rename".as_slice() {
            Some(Verb::Rename)
        } else if word == b"reorder".as_slice() {
            Some(Verb::Reorder)
        } else {
            None
        }
    }
}

/// The first word of a command.
#[derive(Clone, Copy)]
pub enum Keyword {
    Show,
    Get,
    Stage(Verb),
    Add,
    Changes,
    Revert,
    Commit,
    Export,
    Import,
    Batch,
}

impl Keyword {
    /// The keyword that a word is.
    pub fn of(word: &[u8]) -> Option<Keyword>
        ensures { result ≡ keyword_of word.now }
    {
        if word == b"show".as_slice() {
            Some(Keyword::Show)
        } else if word == b"get".as_slice() {
            Some(Keyword::Get)
        } else if word == b"add".as_slice() {
            Some(Keyword::Add)
        } else if word == b"changes".as_slice() {
            Some(Keyword::Changes)
        } else if word == b"revert".as_slice() {
            Some(Keyword::Revert)
        } else if word == b"commit".as_slice() {
            Some(Keyword::Commit)
        } else if word == b"export".as_slice() {
            Some(Keyword::Export)
        } else if word == b"import".as_slice() {
            Some(Keyword::Import)
        } else if word == b"batch".as_slice() {
            Some(Keyword::Batch)
        } else {
            match Verb::of(word) {
                Some(verb) => Some(Keyword::Stage(verb)),
                None => None,
            }
        }
    }
}
