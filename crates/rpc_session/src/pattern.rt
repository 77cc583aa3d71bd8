ghost use Rattle.std.specs.Prelude.{◌≡◌, List, ℕ, true, false};
ghost use Rattle.plane_words.specs.Pattern as words;
ghost use Rattle.rpc_session.specs.Pattern as spec;

/// How a pattern and a text agree in front of the pattern's first `*`.
enum Front<'a> {
    Fits,
    Differs,
    /// They agree so far. `rest` stands behind the `*`, and `left` is what is left of the text.
    Star { rest: &'a [u8], left: &'a [u8] },
}

/// Whether the pattern fits the text: `*` stands for any bytes, perhaps none, and `?` for one. It
/// takes no memory, and at most as many steps as the pattern times the text has bytes.
pub fn fits(pattern: &[u8], text: &[u8]) -> bool
    ensures { result ≡ words.fits pattern.now text.now }
{
    match read_front(pattern, text) {
        Front::Fits => true,
        Front::Differs => false,
        Front::Star { rest, left } => fits_later(rest, left),
    }
}

/// Whether the pattern fits some end of the text. Behind each `*` the first place at which the
/// pattern goes on is enough, since the next `*` may stand for more bytes.
fn fits_later(pattern: &[u8], text: &[u8]) -> bool
    ensures { result ≡ words.fits_later (words.fits pattern.now) text.now }
{
    let mut tail = pattern;
    let mut ending = text;
    loop {
        match skip_to_front(tail, ending) {
            Front::Fits => return true,
            Front::Differs => return false,
            Front::Star { rest, left } => {
                tail = rest;
                ending = left;
            }
        }
    }
}

/// The front at the first end of the text at which they do not differ.
fn skip_to_front<'a>(pattern: &'a [u8], text: &'a [u8]) -> Front<'a>
    ensures fits { result ≡ Front.Fits →
        words.fits_later (words.fits pattern.now) text.now ≡ true }
    ensures differs { result ≡ Front.Differs →
        words.fits_later (words.fits pattern.now) text.now ≡ false }
    ensures star { (rest left : _) → result ≡ Front.Star rest left →
        spec.SkipsOn pattern.now text.now rest.now left.now }
{
    let mut ending = text;
    loop {
        match read_front(pattern, ending) {
            Front::Fits => return Front::Fits,
            Front::Star { rest, left } => return Front::Star { rest, left },
            Front::Differs => {
                let Some((_, shorter)) = ending.split_first() else {
                    return Front::Differs;
                };
                ending = shorter;
            }
        }
    }
}

fn read_front<'a>(pattern: &'a [u8], text: &'a [u8]) -> Front<'a>
    ensures fits { result ≡ Front.Fits → words.fits pattern.now text.now ≡ true }
    ensures differs { result ≡ Front.Differs → words.fits pattern.now text.now ≡ false }
    ensures star { (rest left : _) → result ≡ Front.Star rest left →
        spec.GoesOn pattern.now text.now rest.now left.now }
{
    let mut tail = pattern;
    let mut ending = text;
    while let Some((byte, rest)) = tail.split_first() {
        if *byte == b'*' {
            return Front::Star { rest, left: ending };
        }
        let Some((first, left)) = ending.split_first() else {
            return Front::Differs;
        };
        if !passes(*byte, *first) {
            return Front::Differs;
        }
        tail = rest;
        ending = left;
    }
    if ending.is_empty() {
        Front::Fits
    } else {
        Front::Differs
    }
}

fn passes(byte: u8, first: u8) -> bool
    ensures { result ≡ spec.passes byte first }
{
    byte == b'?' || byte == first
}
