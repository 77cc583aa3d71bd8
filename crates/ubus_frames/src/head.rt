ghost use Rattle.std.specs.Prelude.{◌≡◌, ◌≤◌, ◌+◌, IfOk, IfErr, MatchOption, length, take, drop};
ghost use Rattle.ubus_frames.specs.Fault.{IsHeadFault, IsWordFault};
ghost use Rattle.ubus_frames.specs.Frame.{HasHead, IsTaken, bare_in, blob_length_in};
ghost use Rattle.ubus_frames.specs.Layout.{IsUnfinished};

use crate::field::read_word;
use crate::{Frame, FrameError, MOST_BLOB};
use blob_codec::BlobError;

/// How many bytes the frame in front has, where it is there; none where bytes are missing.
///
/// # Errors
///
/// `Version` where the first byte is not 0. With twelve bytes: `TooLong` where the blob has more
/// than 1,048,576, and `BadBlob` where it has less than 4 (`BadLength` at 8), or the flag or
/// another id than 0 (`BadType` at 8).
pub fn frame_size(bytes: &[u8]) -> Result<Option<usize>, FrameError>
    ensures size { IfOk result (λ size. MatchOption size (IsUnfinished bytes.now) (λ n.
        HasHead bytes.now × (n ≡ 8 + blob_length_in bytes.now) × (n ≤ length bytes.now))) }
    ensures refused { IfErr result (λ error. IsHeadFault bytes.now error) }
{
    if bytes.is_empty() {
        return Ok(None);
    }
    let version = u8::from_be_bytes(chunk_at(bytes, 0));
    if version != 0 {
        return Err(FrameError::Version { byte: version });
    }
    if bytes.len() < 12 {
        return Ok(None);
    }
    match blob_length(bytes) {
        Ok(length) if bytes.len() < 8 + length => Ok(None),
        Ok(length) => Ok(Some(8 + length)),
        Err(error) => Err(error),
    }
}

/// The head of a frame, without attributes.
#[tactic(auto, unfolding(crate::specs::Frame::bare_in))]
pub(crate) fn read_head(bytes: &[u8]) -> Frame
    requires { 12 ≤ length bytes.now }
    ensures { result ≡ bare_in bytes.now }
{
    let kind = u8::from_be_bytes(chunk_at(bytes, 1));
    let seq = u16::from_be_bytes(chunk_at(bytes, 2));
    let peer = u32::from_be_bytes(chunk_at(bytes, 4));
    Frame::new(kind, seq, peer)
}

/// How long the blob is, by its word.
fn blob_length(bytes: &[u8]) -> Result<usize, FrameError>
    requires { 12 ≤ length bytes.now }
    ensures found { IfOk result (λ n. IsTaken bytes.now × (n ≡ blob_length_in bytes.now)) }
    ensures refused { IfErr result (λ error. IsWordFault bytes.now error) }
{
    let (_, blob) = bytes.split_at(8);
    let Some(word) = read_word(blob) else {
        return Err(FrameError::BadBlob(BlobError::Short { at: 8 }));
    };
    if word.length > MOST_BLOB {
        return Err(FrameError::TooLong {
            length: word.length,
        });
    }
    if word.length < 4 {
        return Err(FrameError::BadBlob(BlobError::BadLength { at: 8 }));
    }
    if word.flag != 0 {
        return Err(FrameError::BadBlob(BlobError::BadType { at: 8 }));
    }
    if word.id != 0 {
        return Err(FrameError::BadBlob(BlobError::BadType { at: 8 }));
    }
    Ok(word.length as usize)
}

fn chunk_at<const N: usize>(bytes: &[u8], at: usize) -> [u8; N]
    requires { at + N ≤ length bytes.now }
    ensures { result ≡ take N (drop at bytes.now) }
{
    let (_, tail) = bytes.split_at(at);
    match tail.split_first_chunk::<N>() {
        Some((chunk, _)) => *chunk,
        None => [0; N],
    }
}
