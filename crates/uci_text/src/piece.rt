ghost use Rattle.std.specs.Prelude.{◌≡◌, ◌≢◌, ◌∷◌, ◌++◌, IfOk, OnOk, Err};
ghost use Rattle.uci_text.specs.declared.stop.Stop.{Stop};
ghost use Rattle.uci_text.specs.Byte.{double_quote, single_quote, backslash};
ghost use Rattle.uci_text.specs.ByteClass.{ends_word};
ghost use Rattle.uci_text.specs.Piece.{escaped_value};
ghost use Rattle.uci_text.specs.Found.{BeginsOutside, TakesPiece, IsOpenPiece};

use crate::byte_class::ByteClass;
use crate::stop::Stop;
use plane_io::Memory;

/// Appends what a backslash with this byte gives.
fn push_escaped(value: &mut Vec<u8>, byte: u8) -> Result<(), Memory>
    ensures { OnOk result (value.new.items ≡ value.old.items ++ escaped_value byte) }
{
    if byte != b'\n' {
        value.push(byte)?;
    }
    Ok(())
}

/// Reads on behind a backslash.
fn read_escaped<'a>(value: &mut Vec<u8>, inside: &'a [u8]) -> Result<&'a [u8], Stop>
    ensures found { IfOk result (λ rest.
        TakesPiece (backslash ∷ inside.now) value.old.items value.new.items rest.now) }
    ensures stopped { (stop : Stop) → result ≡ Err stop → stop ≢ Stop.Memory →
        IsOpenPiece (backslash ∷ inside.now) stop }
{
    let Some((byte, rest)) = inside.split_first() else {
        return Err(Stop::Backslash);
    };
    push_escaped(value, *byte)?;
    Ok(rest)
}

/// Reads on behind a single quote.
fn read_single<'a>(value: &mut Vec<u8>, inside: &'a [u8]) -> Result<&'a [u8], Stop>
    ensures found { IfOk result (λ rest.
        TakesPiece (single_quote ∷ inside.now) value.old.items value.new.items rest.now) }
    ensures stopped { (stop : Stop) → result ≡ Err stop → stop ≢ Stop.Memory →
        IsOpenPiece (single_quote ∷ inside.now) stop }
{
    let (bytes, behind) = ByteClass::Quotable.split(inside);
    let Some((_, rest)) = behind.split_first() else {
        let left = inside.len() + 1;
        return Err(Stop::Quote { left });
    };
    value.extend_from_slice(bytes)?;
    Ok(rest)
}

/// Reads on behind a double quote.
fn read_double<'a>(value: &mut Vec<u8>, inside: &'a [u8]) -> Result<&'a [u8], Stop>
    ensures found { IfOk result (λ rest.
        TakesPiece (double_quote ∷ inside.now) value.old.items value.new.items rest.now) }
    ensures stopped { (stop : Stop) → result ≡ Err stop → stop ≢ Stop.Memory →
        IsOpenPiece (double_quote ∷ inside.now) stop }
{
    let left = inside.len() + 1;
    let mut rest = inside;
    loop {
        let (bytes, behind) = ByteClass::DoubleQuotable.split(rest);
        value.extend_from_slice(bytes)?;
        let Some((mark, after)) = behind.split_first() else {
            return Err(Stop::Quote { left });
        };
        if *mark == b'"' {
            return Ok(after);
        }
        let Some((byte, next)) = after.split_first() else {
            return Err(Stop::Quote { left });
        };
        push_escaped(value, *byte)?;
        rest = next;
    }
}

/// Appends the value of the piece in front, and gives what is behind that piece.
pub fn read_piece<'a>(value: &mut Vec<u8>, bytes: &'a [u8]) -> Result<&'a [u8], Stop>
    requires { BeginsOutside ends_word bytes.now }
    ensures found { IfOk result (λ rest.
        TakesPiece bytes.now value.old.items value.new.items rest.now) }
    ensures stopped { (stop : Stop) → result ≡ Err stop → stop ≢ Stop.Memory →
        IsOpenPiece bytes.now stop }
{
    let Some((mark, inside)) = bytes.split_first() else {
        unreachable!()
    };
    match *mark {
        b'\'' => read_single(value, inside),
        b'"' => read_double(value, inside),
        b'\\' => read_escaped(value, inside),
        _ => {
            let (run, rest) = ByteClass::Plain.split(bytes);
            value.extend_from_slice(run)?;
            Ok(rest)
        }
    }
}
