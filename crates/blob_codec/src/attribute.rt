ghost use Rattle.std.specs.Prelude.{◌≡◌, ◌<◌, ◌≤◌, ◌^◌, IfOk, IfErr, MatchOption, Some, length};
ghost use Rattle.blob_codec.specs.Attribute.{padded, name_length_in};
ghost use Rattle.blob_codec.specs.Fault.{first_held, tests_of};
ghost use Rattle.blob_codec.specs.Found.{IsWord, IsHead, HasParts};

use crate::BlobError;
use crate::nul::ends_at_nul;

/// The word of an attribute: whether it has a name, its type, and its length.
#[derive(Clone, Copy)]
pub(crate) struct Head {
    pub flag: u32,
    pub kind: u8,
    pub length: usize,
}

/// The parts of an attribute, and what is behind it.
#[derive(Clone, Copy)]
pub(crate) struct Parts<'a> {
    pub kind: u8,
    pub name: &'a [u8],
    pub value: &'a [u8],
    /// Where the value begins, from the attribute's first byte.
    pub value_place: usize,
    /// How many bytes the attribute and its padding take.
    pub size: usize,
    pub behind: &'a [u8],
}

/// Takes apart the attribute in front. `place` is that of its first byte in the whole.
pub(crate) fn split_attribute(bytes: &[u8], place: usize) -> Result<Parts<'_>, BlobError>
    ensures found { IfOk result (λ parts. HasParts bytes.now parts) }
    ensures refused { IfErr result (λ error.
        first_held (tests_of place bytes.now) ≡ Some error) }
{
    let head = read_head(bytes, place)?;
    let Some(name_length) = read_name_length(bytes) else {
        return Err(BlobError::BadLength { at: place });
    };
    let value_place = 4 + padded_size(name_length + 3);
    if head.length < value_place {
        return Err(BlobError::BadLength { at: place });
    }
    let (_, tail) = bytes.split_at(6);
    let (named, _) = tail.split_at(name_length + 1);
    if !ends_at_nul(named) {
        return Err(BlobError::BadLength { at: place });
    }
    let (name, _) = tail.split_at(name_length);
    let (attribute, _) = bytes.split_at(head.length);
    let (_, value) = attribute.split_at(value_place);
    let size = padded_size(head.length);
    let (_, behind) = bytes.split_at(size);
    Ok(Parts {
        kind: head.kind,
        name,
        value,
        value_place,
        size,
        behind,
    })
}

fn read_head(bytes: &[u8], place: usize) -> Result<Head, BlobError>
    ensures found { IfOk result (λ head. IsHead bytes.now head) }
    ensures refused { IfErr result (λ error.
        first_held (tests_of place bytes.now) ≡ Some error) }
{
    let Some(head) = read_word(bytes) else {
        return Err(BlobError::Short { at: place });
    };
    if bytes.len() < padded_size(head.length) {
        return Err(BlobError::Short { at: place });
    }
    if head.length < 4 {
        return Err(BlobError::BadLength { at: place });
    }
    if head.flag != 1 {
        return Err(BlobError::BadType { at: place });
    }
    if head.kind > 8 {
        return Err(BlobError::BadType { at: place });
    }
    if head.kind == 8 {
        return Err(BlobError::Double { at: place });
    }
    Ok(head)
}

#[tactic(auto, using(crate::proofs::HeadLemmas::head_fields))]
fn read_word(bytes: &[u8]) -> Option<Head>
    ensures { MatchOption result (length bytes.now < 4) (λ head. IsWord bytes.now head) }
{
    let (word, _) = bytes.split_first_chunk::<4>()?;
    let word = u32::from_be_bytes(*word);
    Some(Head {
        flag: word / 0x8000_0000,
        kind: (word / 0x100_0000 % 0x80) as u8,
        length: (word % 0x100_0000) as usize,
    })
}

/// How long the name is, by the two bytes behind the word.
#[tactic(auto, unfolding(crate::specs::Attribute::name_length_in))]
fn read_name_length(bytes: &[u8]) -> Option<usize>
    requires { 4 ≤ length bytes.now }
    ensures { MatchOption result (length bytes.now < 6) (λ n.
        (6 ≤ length bytes.now) × (n < 2 ^ 16) × (n ≡ name_length_in bytes.now)) }
{
    let (_, tail) = bytes.split_at(4);
    let (length, _) = tail.split_first_chunk::<2>()?;
    Some(usize::from(u16::from_be_bytes(*length)))
}

/// The next multiple of 4.
#[tactic(auto, unfolding(crate::specs::Attribute::padded))]
pub(crate) fn padded_size(size: usize) -> usize
    requires { size < 2 ^ 32 }
    ensures { result ≡ padded size }
{
    (size + 3) / 4 * 4
}
