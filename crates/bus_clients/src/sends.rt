ghost use Rattle.std.specs.Prelude.{◌≡◌, ◌++◌, true, OnOk, decimal};
ghost use Rattle.ubus_send.specs.Fits.{fits};
ghost use Rattle.bus_clients.specs.Sends as spec;

use crate::clients::{ScriptClient, key_of};
use itoa::Buffer;
use plane_io::Memory;
use ubus_frames::{Frame, write_frame};
use ubus_send::{Outgoing, does_fit};

/// Appends a line for each frame that goes to a client, in their order.
pub(crate) fn append_sends(
    clients: &[ScriptClient],
    out: &[Outgoing],
    told: &mut Vec<u8>,
) -> Result<(), Memory>
    ensures { OnOk result
        (told.new.items ≡ told.old.items ++ spec.send_lines clients.now out.now) }
{
    for sent in out {
        append_to(key_of(clients, sent.client), &sent.frame, told)?;
    }
    Ok(())
}

fn append_to(key: Option<u32>, frame: &Frame, told: &mut Vec<u8>) -> Result<(), Memory>
    ensures { OnOk result (told.new.items ≡ told.old.items ++ spec.line_to key frame.now) }
{
    let Some(key) = key else {
        return Ok(());
    };
    if !does_fit(frame) {
        return Ok(());
    }
    append_send(key, frame, told)
}

/// Appends the line that tells that the client is sent the frame, in hexadecimal digits.
fn append_send(key: u32, frame: &Frame, told: &mut Vec<u8>) -> Result<(), Memory>
    requires { fits frame.now ≡ true }
    ensures { OnOk result (told.new.items ≡ told.old.items ++ spec.send_line key frame.now) }
{
    let alloc = *told.allocator();
    let mut bytes = Vec::new(alloc);
    write_frame(&mut bytes, frame)?;
    let digits = hex::encode(alloc, bytes)?;
    told.extend_from_slice(b"send ")?;
    append_number(key, told)?;
    told.push(b' ')?;
    told.extend_from_slice(digits.as_bytes())?;
    told.push(b'\n')?;
    Ok(())
}

fn append_number(number: u32, told: &mut Vec<u8>) -> Result<(), Memory>
    ensures { OnOk result (told.new.items ≡ told.old.items ++ decimal number) }
{
    let mut digits = Buffer::new();
    told.extend_from_slice(digits.format(number).as_bytes())?;
    Ok(())
}
