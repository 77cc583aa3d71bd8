ghost use Rattle.std.specs.Prelude.{◌≡◌};
ghost use Rattle.plane_words.specs.Pattern as words;

/// Whether the pattern fits the text: a pattern that ends with `*` fits the texts that begin with
/// what stands before it, and any other fits itself alone.
pub fn fits_front(pattern: &[u8], text: &[u8]) -> bool
    ensures { result ≡ words.fits_front pattern.now text.now }
{
    let Some((last, front)) = pattern.split_last() else {
        return text.is_empty();
    };
    if *last == b'*' {
        text.starts_with(front)
    } else {
        pattern == text
    }
}
