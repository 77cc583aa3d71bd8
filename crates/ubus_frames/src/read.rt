ghost use Rattle.std.specs.Prelude.{ℕ, ◌≡◌, ◌≢◌, ◌<◌, ◌+◌, ◌^◌, IfOk, OnOk, Err, length};
ghost use Rattle.blob_codec.specs.declared.blob_error.BlobError.{BlobError};
ghost use Rattle.ubus_frames.specs.declared.frame.Frame.{Frame};
ghost use Rattle.ubus_frames.specs.declared.frame_error.FrameError.{FrameError};
ghost use Rattle.ubus_frames.specs.Fault.{IsFieldsFault, IsFrameFault, IsKnownFault, IsValueFault};
ghost use Rattle.ubus_frames.specs.Frame.{HasHead, blob_length_in};
ghost use Rattle.ubus_frames.specs.Layout as layout;
ghost use Rattle.ubus_frames.specs.Layout.{MakesOf, Puts, SpellsFrame};
ghost use Rattle.ubus_frames.specs.Value.{IsValue};

use crate::field::split_field;
use crate::head::read_head;
use crate::numbers::{read_numbers, read_u32};
use crate::parts::{read_attrs, read_byte, read_text};
use crate::value::{Kind, Value, kind_of_id};
use crate::{Frame, FrameError};
use blob_codec::BlobError;
use std::alloc::Global;

/// Reads one whole frame.
///
/// # Errors
///
/// The first fault of the attributes, with its place from the frame's first byte, or `Memory`.
pub fn read_frame(alloc: Global, bytes: &[u8]) -> Result<Frame, FrameError>
    requires head { HasHead bytes.now }
    requires whole { 8 + blob_length_in bytes.now ≡ length bytes.now }
    ensures found { IfOk result (λ frame. SpellsFrame bytes.now frame) }
    ensures only { IfOk result (λ frame.
        (other : Frame) → SpellsFrame bytes.now other → other ≡ frame) }
    ensures refused { (error : FrameError) → result ≡ Err error → error ≢ FrameError.Memory →
        IsFrameFault bytes.now error }
{
    let mut frame = read_head(bytes);
    let (_, fields) = bytes.split_at(12);
    match read_fields(alloc, fields, &mut frame) {
        Ok(()) => Ok(frame),
        Err(error) => Err(FrameError::from(error)),
    }
}

/// Puts the values of attributes, which begin at the frame's byte 12, into the frame.
fn read_fields(alloc: Global, bytes: &[u8], frame: &mut Frame) -> Result<(), BlobError>
    requires { 12 + length bytes.now < 2 ^ 64 }
    ensures found { OnOk result (MakesOf bytes.now frame.old frame.new) }
    ensures refused { (error : BlobError) → result ≡ Err error → error ≢ BlobError.Memory →
        IsFieldsFault 12 bytes.now error }
{
    let (mut rest, mut at) = (bytes, 12);
    while !rest.is_empty() {
        let parts = split_field(rest, at)?;
        put_field(alloc, frame, parts.flag, parts.id, parts.data, at)?;
        at += parts.size;
        rest = parts.behind;
    }
    Ok(())
}

/// Puts the value of an attribute at `place` into the frame, where it is read.
fn put_field(
    alloc: Global,
    frame: &mut Frame,
    flag: u32,
    id: u8,
    bytes: &[u8],
    place: usize,
) -> Result<(), BlobError>
    requires { place + 4 + length bytes.now < 2 ^ 64 }
    ensures puts { OnOk result (Puts flag id bytes.now frame.old frame.new) }
    ensures refused { (error : BlobError) → result ≡ Err error → error ≢ BlobError.Memory →
        IsKnownFault place flag id bytes.now error }
{
    match kind_of_parts(flag, id) {
        Some(kind) => {
            let value = read_value(alloc, kind, bytes, place)?;
            frame.put(id, value);
            Ok(())
        }
        None => Ok(()),
    }
}

/// What an attribute holds, where it is read: without the flag, and with a known id.
fn kind_of_parts(flag: u32, id: u8) -> Option<Kind>
    ensures { result ≡ layout.kind_of_word flag id }
{
    if flag == 1 { None } else { kind_of_id(id) }
}

/// Reads the value of an attribute at `place` in the frame.
fn read_value(alloc: Global, kind: Kind, bytes: &[u8], place: usize) -> Result<Value, BlobError>
    requires { place + 4 + length bytes.now < 2 ^ 64 }
    ensures found { IfOk result (λ value. IsValue kind bytes.now value) }
    ensures refused { (error : BlobError) → result ≡ Err error → error ≢ BlobError.Memory →
        IsValueFault place kind bytes.now error }
{
    match kind {
        Kind::OneNumber => Ok(Value::Number(read_u32(bytes, place)?)),
        Kind::OneText => Ok(Value::Words(read_text(alloc, bytes, place)?)),
        Kind::AttrList => Ok(Value::Attrs(read_attrs(alloc, bytes, place + 4)?)),
        Kind::OneByte => Ok(Value::Truth(read_byte(bytes, place)? != 0)),
        Kind::NumberList => Ok(Value::Numbers(read_numbers(alloc, bytes, place + 4)?)),
    }
}
