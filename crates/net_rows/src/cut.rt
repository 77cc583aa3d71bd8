ghost use Rattle.std.specs.Prelude.{MatchOption};
ghost use Rattle.net_rows.specs.Cut.{HasNone, CutsAtFirst, CutsAtLast};

/// What is in front of the first of these bytes, and what is behind it.
pub fn cut_first(text: &[u8], byte: u8) -> Option<(&[u8], &[u8])>
    ensures { MatchOption result (HasNone byte text.now)
        (λ cut. CutsAtFirst byte text.now cut.0.now cut.1.now) }
{
    for (at, other) in text.iter().enumerate() {
        if *other == byte {
            return Some((&text[..at], &text[at + 1..]));
        }
    }
    None
}

/// What is in front of the last of these bytes, and what is behind it.
pub fn cut_last(text: &[u8], byte: u8) -> Option<(&[u8], &[u8])>
    ensures { MatchOption result (HasNone byte text.now)
        (λ cut. CutsAtLast byte text.now cut.0.now cut.1.now) }
{
    for at in (0..text.len()).rev() {
        if text[at] == byte {
            return Some((&text[..at], &text[at + 1..]));
        }
    }
    None
}
