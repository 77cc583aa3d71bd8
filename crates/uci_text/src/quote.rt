ghost use Rattle.std.specs.Prelude.{◌≡◌, ◌++◌, ℕ, List, OnOk, OnErr};
ghost use Rattle.uci_text.specs.Quote.{quoted, quoted_byte, IsWordFor, AddsTo};

use plane_io::Memory;

fn push_quoted(out: &mut Vec<u8>, byte: u8) -> Result<(), Memory>
    ensures ok { OnOk result (out.new.items ≡ out.old.items ++ quoted_byte byte) }
    ensures err { OnErr result (out.new.items ≡ out.old.items) }
{
    if byte == b'\'' {
        out.extend_from_slice(b"'\\''")?;
    } else {
        out.push(byte)?;
    }
    Ok(())
}

fn append_quoted(out: &mut Vec<u8>, value: &[u8]) -> Result<(), Memory>
    ensures ok { OnOk result (out.new.items ≡ out.old.items ++ quoted value.now) }
    ensures err { OnErr result (AddsTo out.old.items out.new.items) }
{
    out.push(b'\'')?;
    for byte in value {
        push_quoted(out, *byte)?;
    }
    out.push(b'\'')?;
    Ok(())
}

/// Appends the value in single quotes, and each single quote in it as `'\''`: a word that spells
/// the value, where this has no zero byte.
///
/// # Errors
///
/// `Memory` where there was not enough memory; nothing is appended then.
pub fn quote_into(out: &mut Vec<u8>, value: &[u8]) -> Result<(), Memory>
    ensures appended { OnOk result (out.new.items ≡ out.old.items ++ quoted value.now) }
    ensures word { IsWordFor (quoted value.now) value.now }
    ensures err { OnErr result (out.new.items ≡ out.old.items) }
{
    let length = out.len();
    let appended = append_quoted(out, value);
    if appended.is_err() {
        out.truncate(length);
    }
    appended
}
