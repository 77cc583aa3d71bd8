ghost use Rattle.std.specs.Prelude.{◌≡◌, ◌∷◌, [], ◌++◌, ◌+◌, ◌*◌, ◌<◌, ◌^◌, OnOk, OnErr, length};
ghost use Rattle.std.specs.Int.{w32, to_be_bytes};
ghost use Rattle.blob_codec.specs.Limits.{FitsBlob};
ghost use Rattle.blob_codec.specs.Written.{padding, written as blob_bytes};
ghost use Rattle.ubus_frames.specs.Written.{FitsFrame, IfThere, number_bytes, numbers_bytes};
ghost use Rattle.ubus_frames.specs.Written.{text_bytes, truth_bytes, where_some, written_field};
ghost use Rattle.ubus_frames.specs.Written.{written_fields, written_frame};

use crate::Frame;
use crate::field::padded_size;
use blob_codec::{Attr, write_blob};
use plane_io::{Memory, Text};
use sqlite_items::Items;

/// Appends the frame: its one spelling whose padding is zero, with its attributes by rising id.
///
/// The frame fits, as `frame_fits` tells.
///
/// # Errors
///
/// Want of memory leaves the bytes as they were.
pub fn write_frame(out: &mut Vec<u8>, frame: &Frame) -> Result<(), Memory>
    requires fits { FitsFrame frame.now }
    ensures appends { OnOk result (out.new.items ≡ out.old.items ++ written_frame frame.now) }
    ensures kept { OnErr result (out.new.items ≡ out.old.items) }
{
    let mut bytes = Vec::new(*out.allocator());
    write_whole(&mut bytes, frame)?;
    out.append(&mut bytes)?;
    Ok(())
}

fn write_whole(out: &mut Vec<u8>, frame: &Frame) -> Result<(), Memory>
    requires fits { FitsFrame frame.now }
    ensures { OnOk result (out.new.items ≡ out.old.items ++ written_frame frame.now) }
{
    let mut fields = Vec::new(*out.allocator());
    write_fields(&mut fields, frame)?;
    write_bytes(out, &[0, frame.kind])?;
    write_bytes(out, &frame.seq.to_be_bytes())?;
    write_bytes(out, &frame.peer.to_be_bytes())?;
    write_word(out, 0, 4 + fields.len())?;
    write_bytes(out, fields.as_slice())
}

fn write_fields(out: &mut Vec<u8>, frame: &Frame) -> Result<(), Memory>
    requires fits { FitsFrame frame.now }
    ensures { OnOk result (out.new.items ≡ out.old.items ++ written_fields frame.now) }
{
    write_number(out, 1, frame.status)?;
    write_text(out, 2, &frame.path)?;
    write_number(out, 3, frame.id)?;
    write_text(out, 4, &frame.method)?;
    write_number(out, 5, frame.objtype)?;
    write_attrs(out, 6, &frame.signature)?;
    write_attrs(out, 7, &frame.payload)?;
    write_number(out, 8, frame.target)?;
    write_truth(out, 9, frame.active)?;
    write_truth(out, 10, frame.no_reply)?;
    write_numbers(out, 11, &frame.subscribers)?;
    write_text(out, 12, &frame.user)?;
    write_text(out, 13, &frame.group)
}

fn write_number(out: &mut Vec<u8>, id: u8, number: Option<u32>) -> Result<(), Memory>
    requires { id < 128 }
    ensures { OnOk result
        (out.new.items ≡ out.old.items ++ where_some number_bytes id number) }
{
    match number {
        Some(number) => write_field(out, id, &number.to_be_bytes()),
        None => Ok(()),
    }
}

fn write_truth(out: &mut Vec<u8>, id: u8, truth: Option<bool>) -> Result<(), Memory>
    requires { id < 128 }
    ensures { OnOk result (out.new.items ≡ out.old.items ++ where_some truth_bytes id truth) }
{
    match truth {
        Some(true) => write_field(out, id, &[1]),
        Some(false) => write_field(out, id, &[0]),
        None => Ok(()),
    }
}

fn write_text(out: &mut Vec<u8>, id: u8, text: &Option<Text>) -> Result<(), Memory>
    requires known { id < 128 }
    requires size { length (where_some text_bytes id text.now) < 2 ^ 24 }
    ensures { OnOk result (out.new.items ≡ out.old.items ++ where_some text_bytes id text.now) }
{
    match text {
        Some(text) => {
            let mut bytes = Vec::new(*out.allocator());
            write_bytes(&mut bytes, text.as_bytes())?;
            bytes.push(0)?;
            write_field(out, id, bytes.as_slice())
        }
        None => Ok(()),
    }
}

fn write_attrs(out: &mut Vec<u8>, id: u8, attrs: &Option<Items<Attr>>) -> Result<(), Memory>
    requires known { id < 128 }
    requires fits { IfThere FitsBlob attrs.now }
    requires size { length (where_some blob_bytes id attrs.now) < 2 ^ 24 }
    ensures { OnOk result (out.new.items ≡ out.old.items ++ where_some blob_bytes id attrs.now) }
{
    match attrs {
        Some(attrs) => {
            let mut bytes = Vec::new(*out.allocator());
            write_blob(&mut bytes, attrs.as_slice())?;
            write_field(out, id, bytes.as_slice())
        }
        None => Ok(()),
    }
}

fn write_numbers(out: &mut Vec<u8>, id: u8, numbers: &Option<Items<u32>>) -> Result<(), Memory>
    requires known { id < 128 }
    requires size { length (where_some numbers_bytes id numbers.now) < 2 ^ 24 }
    ensures { OnOk result
        (out.new.items ≡ out.old.items ++ where_some numbers_bytes id numbers.now) }
{
    match numbers {
        Some(numbers) => {
            let mut bytes = Vec::new(*out.allocator());
            write_list(&mut bytes, numbers.as_slice())?;
            write_field(out, id, bytes.as_slice())
        }
        None => Ok(()),
    }
}

/// Appends numbers, each as an attribute with the id 0.
fn write_list(out: &mut Vec<u8>, numbers: &[u32]) -> Result<(), Memory>
    ensures { OnOk result (out.new.items ≡ out.old.items ++ numbers_bytes numbers.now) }
{
    for number in numbers {
        write_field(out, 0, &number.to_be_bytes())?;
    }
    Ok(())
}

/// Appends an attribute: its word, its data, its padding.
fn write_field(out: &mut Vec<u8>, id: u8, bytes: &[u8]) -> Result<(), Memory>
    requires known { id < 128 }
    requires size { length bytes.now + 4 < 2 ^ 24 }
    ensures { OnOk result (out.new.items ≡ out.old.items ++ written_field id bytes.now) }
{
    let size = 4 + bytes.len();
    write_word(out, id, size)?;
    write_bytes(out, bytes)?;
    let (zeros, _) = [0; 3].split_at(padded_size(size) - size);
    write_bytes(out, zeros)
}

/// Appends the word of an attribute without the flag.
fn write_word(out: &mut Vec<u8>, id: u8, size: usize) -> Result<(), Memory>
    requires known { id < 128 }
    requires size { size < 2 ^ 24 }
    ensures { OnOk result
        (out.new.items ≡ out.old.items ++ to_be_bytes w32 (id * 2 ^ 24 + size)) }
{
    let word = u32::from(id) * 0x100_0000 + size as u32;
    write_bytes(out, &word.to_be_bytes())
}

fn write_bytes(out: &mut Vec<u8>, bytes: &[u8]) -> Result<(), Memory>
    ensures { OnOk result (out.new.items ≡ out.old.items ++ bytes.now) }
{
    out.extend_from_slice(bytes)?;
    Ok(())
}
