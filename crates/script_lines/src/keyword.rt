ghost use Rattle.std.specs.Prelude.{◌≡◌};
ghost use Rattle.script_lines.specs.Lines.{keyword_of};

/// The first word of a line.
#[derive(Clone, Copy)]
pub enum Keyword {
    At,
    Dev,
    Carrier,
    Answer,
    Radio,
    Up,
    Down,
    Reload,
    Uci,
    Call,
    Client,
    Status,
}

impl Keyword {
    /// The keyword that a word is, if it is one.
    pub fn of(word: &[u8]) -> Option<Keyword>
        ensures { result ≡ keyword_of word.now }
    {
        if word == b"at".as_slice() {
            Some(Keyword::At)
        } else if word == b"dev".as_slice() {
            Some(Keyword::Dev)
        } else if word == b"carrier".as_slice() {
            Some(Keyword::Carrier)
        } else if word == b"answer".as_slice() {
            Some(Keyword::Answer)
        } else if word == b"radio".as_slice() {
            Some(Keyword::Radio)
        } else if word == b"up".as_slice() {
            Some(Keyword::Up)
        } else if word == b"down".as_slice() {
            Some(Keyword::Down)
        } else if word == b"reload".as_slice() {
            Some(Keyword::Reload)
        } else if word == b"uci".as_slice() {
            Some(Keyword::Uci)
        } else if word == b"call".as_slice() {
            Some(Keyword::Call)
        } else if word == b"client".as_slice() {
            Some(Keyword::Client)
        } else if word == b"status".as_slice() {
            Some(Keyword::Status)
        } else {
            None
        }
    }
}
