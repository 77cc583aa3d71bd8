ghost use Rattle.std.specs.Prelude.{◌≡◌, ◌++◌, OnOk, IfOk, decimal};
ghost use Rattle.serde_json.specs.Written.{compact_text};
ghost use Rattle.blob_json.specs.ToJson.{json_of};
ghost use Rattle.call_texts.specs.ReplyLine as spec;

use blob_codec::Attr;
use blob_json::json_of_blob;
use itoa::Buffer;
use plane_io::Memory;
use sqlite_items::Items;
use std::alloc::Global;

/// Appends the line that tells of a reply: `reply`, its status, and its payload as JSON where there
/// is one.
///
/// # Errors
///
/// Want of memory. Then a part of the line may stand there.
pub fn append_reply(
    alloc: Global,
    status: u32,
    payload: &Option<Items<Attr>>,
    out: &mut Vec<u8>,
) -> Result<(), Memory>
    ensures { OnOk result
        (out.new.items ≡ out.old.items ++ spec.reply_line status payload.now) }
{
    out.extend_from_slice(b"reply ")?;
    append_number(status, out)?;
    append_payload(alloc, payload, out)?;
    out.push(b'\n')?;
    Ok(())
}

fn append_payload(
    alloc: Global,
    payload: &Option<Items<Attr>>,
    out: &mut Vec<u8>,
) -> Result<(), Memory>
    ensures { OnOk result (out.new.items ≡ out.old.items ++ spec.payload_text payload.now) }
{
    match payload {
        None => Ok(()),
        Some(attrs) => append_json(alloc, attrs.as_slice(), out),
    }
}

fn append_json(alloc: Global, attrs: &[Attr], out: &mut Vec<u8>) -> Result<(), Memory>
    ensures { OnOk result (out.new.items ≡ out.old.items ++ spec.json_text attrs.now) }
{
    let text = json_of(alloc, attrs)?;
    out.push(b' ')?;
    out.extend_from_slice(&text)?;
    Ok(())
}

fn json_of(alloc: Global, attrs: &[Attr]) -> Result<Vec<u8>, Memory>
    ensures { IfOk result (λ text. text.items ≡ compact_text (json_of attrs.now)) }
{
    let value = json_of_blob(alloc, attrs)?;
    let text = value.to_vec(alloc)?;
    Ok(text)
}

fn append_number(number: u32, out: &mut Vec<u8>) -> Result<(), Memory>
    ensures { OnOk result (out.new.items ≡ out.old.items ++ decimal number) }
{
    let mut digits = Buffer::new();
    out.extend_from_slice(digits.format(number).as_bytes())?;
    Ok(())
}
