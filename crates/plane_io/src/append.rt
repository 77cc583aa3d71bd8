ghost use Rattle.std.specs.Prelude.{◌≡◌, ◌≤◌, ◌+◌, ◌++◌, length, take, drop};

/// Puts a text after the first `at` bytes of a buffer that has room for it, and answers where it
/// ends.
pub fn append_text(into: &mut [u8], at: usize, text: &[u8]) -> usize
    requires { at + length text.now ≤ length into.old }
    ensures end { result ≡ at + length text.now }
    ensures written { take result into.new ≡ take at into.old ++ text.now }
    ensures behind { drop result into.new ≡ drop result into.old }
{
    let end = at + text.len();
    into[at..end].copy_from_slice(text);
    end
}
