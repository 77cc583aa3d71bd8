ghost use Rattle.std.specs.Prelude.{◌≡◌, ◌++◌, OnOk, decimal};
ghost use Rattle.http_requests.specs.Response as spec;

use crate::StatusCode;
use itoa::Buffer;
use plane_io::Memory;

/// Appends the answer to a request, which has this body.
///
/// # Errors
///
/// Want of memory. Then a part of the answer may stand there.
pub fn append_answer(body: &[u8], out: &mut Vec<u8>) -> Result<(), Memory>
    ensures { OnOk result (out.new.items ≡ out.old.items ++ spec.answer body.now) }
{
    append_answer_head(body.len(), out)?;
    out.extend_from_slice(body)?;
    Ok(())
}

/// Appends the head of an answer whose body has so many bytes.
fn append_answer_head(size: usize, out: &mut Vec<u8>) -> Result<(), Memory>
    ensures { OnOk result (out.new.items ≡ out.old.items ++ spec.answer_head size) }
{
    out.extend_from_slice(b"HTTP/1.1 200 OK\r\n")?;
    out.extend_from_slice(b"Content-Type: application/json\r\n")?;
    out.extend_from_slice(b"Content-Length: ")?;
    append_number(size, out)?;
    out.extend_from_slice(b"\r\n\r\n")?;
    Ok(())
}

/// Appends the refusal of a request.
///
/// # Errors
///
/// Want of memory. Then a part of the refusal may stand there.
pub fn append_refusal(status: StatusCode, out: &mut Vec<u8>) -> Result<(), Memory>
    ensures { OnOk result (out.new.items ≡ out.old.items ++ spec.refusal status) }
{
    out.extend_from_slice(b"HTTP/1.1 ")?;
    append_number(usize::from(status.number()), out)?;
    out.push(b' ')?;
    out.extend_from_slice(status.reason().as_bytes())?;
    out.extend_from_slice(b"\r\nConnection: close\r\nContent-Length: 0\r\n\r\n")?;
    Ok(())
}

fn append_number(number: usize, out: &mut Vec<u8>) -> Result<(), Memory>
    ensures { OnOk result (out.new.items ≡ out.old.items ++ decimal number) }
{
    let mut digits = Buffer::new();
    out.extend_from_slice(digits.format(number).as_bytes())?;
    Ok(())
}
