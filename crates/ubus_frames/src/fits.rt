ghost use Rattle.std.specs.Prelude.{◌≡◌, ◌≤◌, ◌<◌, ◌+◌, MatchOption, length, true, false};
ghost use Rattle.blob_codec.specs.Attribute.{padded};
ghost use Rattle.blob_codec.specs.Limits.{FitsBlob, HasNoNul};
ghost use Rattle.blob_codec.specs.Written.{written as blob_bytes};
ghost use Rattle.ubus_frames.specs.declared.frame.TheConstants.{MOST_BLOB};
ghost use Rattle.ubus_frames.specs.Written.{FitsFrame, PartsFit, number_bytes, numbers_bytes};
ghost use Rattle.ubus_frames.specs.Written.{text_bytes, truth_bytes, written_fields};
ghost use Rattle.ubus_frames.specs.Sizes.{FitsPart, HasSize, size_where};

use crate::field::padded_size;
use crate::{Frame, MOST_BLOB};
use blob_codec::{Attr, blob_size};
use lanes_scan::first_nul;
use plane_io::Text;
use sqlite_items::Items;

/// Whether the frame has a spelling: its signature and its data are such as `write_blob` takes, its
/// texts have no zero byte, and it has at most 1,048,576 bytes behind its first eight. It takes no
/// memory.
pub fn frame_fits(frame: &Frame) -> bool
    ensures fits { result ≡ true → FitsFrame frame.now }
    ensures unfit { result ≡ false → FitsFrame frame.now → ⊥ }
{
    match fields_size(frame) {
        Some(size) => size <= MOST_BLOB as usize - 4,
        None => false,
    }
}

/// How many bytes the attributes take, where each of them has a spelling.
fn fields_size(frame: &Frame) -> Option<usize>
    ensures { MatchOption result (FitsFrame frame.now → ⊥) (λ size.
        PartsFit frame.now × (size ≡ length (written_fields frame.now))) }
{
    let Some(path) = text_size(&frame.path) else {
        return None;
    };
    let Some(method) = text_size(&frame.method) else {
        return None;
    };
    let Some(signature) = attrs_size(&frame.signature) else {
        return None;
    };
    let Some(payload) = attrs_size(&frame.payload) else {
        return None;
    };
    let Some(subscribers) = numbers_size(&frame.subscribers) else {
        return None;
    };
    let Some(user) = text_size(&frame.user) else {
        return None;
    };
    let Some(group) = text_size(&frame.group) else {
        return None;
    };
    let numbers = number_size(frame.status)
        + number_size(frame.id)
        + number_size(frame.objtype)
        + number_size(frame.target);
    let truths = truth_size(frame.active) + truth_size(frame.no_reply);
    Some(path + method + signature + payload + subscribers + user + group + numbers + truths)
}

fn number_size(number: Option<u32>) -> usize
    ensures { (result ≡ size_where number_bytes number) × (result ≤ 8) }
{
    match number {
        Some(_) => 8,
        None => 0,
    }
}

fn truth_size(truth: Option<bool>) -> usize
    ensures { (result ≡ size_where truth_bytes truth) × (result ≤ 8) }
{
    match truth {
        Some(_) => 8,
        None => 0,
    }
}

fn text_size(text: &Option<Text>) -> Option<usize>
    ensures { MatchOption result (FitsPart HasNoNul text_bytes text.now → ⊥) (λ size.
        HasSize HasNoNul text_bytes text.now size) }
{
    match text {
        Some(text) if first_nul(text.as_bytes()).is_some() => None,
        Some(text) => field_size(text.as_bytes().len().saturating_add(1)),
        None => Some(0),
    }
}

fn attrs_size(attrs: &Option<Items<Attr>>) -> Option<usize>
    ensures { MatchOption result (FitsPart FitsBlob blob_bytes attrs.now → ⊥) (λ size.
        HasSize FitsBlob blob_bytes attrs.now size) }
{
    match attrs {
        Some(attrs) => field_size(blob_size(attrs.as_slice())?),
        None => Some(0),
    }
}

fn numbers_size(numbers: &Option<Items<u32>>) -> Option<usize>
    ensures { MatchOption result (FitsPart (λ _. Unit) numbers_bytes numbers.now → ⊥) (λ size.
        HasSize (λ _. Unit) numbers_bytes numbers.now size) }
{
    match numbers {
        Some(numbers) => field_size(numbers.len().saturating_mul(8)),
        None => Some(0),
    }
}

/// How many bytes an attribute takes with its padding, where a frame has room for it.
fn field_size(size: usize) -> Option<usize>
    ensures { MatchOption result (MOST_BLOB < padded (4 + size)) (λ whole.
        (whole ≡ padded (4 + size)) × (whole ≤ MOST_BLOB)) }
{
    if size > MOST_BLOB as usize - 4 {
        return None;
    }
    Some(padded_size(4 + size))
}
