ghost use Rattle.std.specs.Prelude.{◌≡◌, ◌<◌, ◌^◌, IfOk, IfErr, MatchOption, Some, length};
ghost use Rattle.blob_codec.specs.Attribute.{padded};
ghost use Rattle.blob_codec.specs.Fault.{first_held};
ghost use Rattle.ubus_frames.specs.Field.{word_tests};
ghost use Rattle.ubus_frames.specs.Found.{IsWord, HasParts};

use blob_codec::BlobError;

/// The word of an attribute.
#[derive(Clone, Copy)]
pub(crate) struct Word {
    pub flag: u32,
    pub id: u8,
    pub length: u32,
}

/// The parts of an attribute, and what is behind it.
#[derive(Clone, Copy)]
pub(crate) struct Parts<'a> {
    pub flag: u32,
    pub id: u8,
    pub data: &'a [u8],
    /// How many bytes the attribute and its padding take.
    pub size: usize,
    pub behind: &'a [u8],
}

/// Takes apart the attribute in front. `place` is that of its first byte in the frame.
pub(crate) fn split_field(bytes: &[u8], place: usize) -> Result<Parts<'_>, BlobError>
    ensures found { IfOk result (λ parts. HasParts bytes.now parts) }
    ensures refused { IfErr result (λ error.
        first_held (word_tests place bytes.now) ≡ Some error) }
{
    let Some(word) = read_word(bytes) else {
        return Err(BlobError::Short { at: place });
    };
    let size = padded_size(word.length as usize);
    if bytes.len() < size {
        return Err(BlobError::Short { at: place });
    }
    if word.length < 4 {
        return Err(BlobError::BadLength { at: place });
    }
    let (attribute, _) = bytes.split_at(word.length as usize);
    let (_, data) = attribute.split_at(4);
    let (_, behind) = bytes.split_at(size);
    Ok(Parts {
        flag: word.flag,
        id: word.id,
        data,
        size,
        behind,
    })
}

#[tactic(auto, using(blob_codec::proofs::HeadLemmas::head_fields))]
pub(crate) fn read_word(bytes: &[u8]) -> Option<Word>
    ensures { MatchOption result (length bytes.now < 4) (λ word. IsWord bytes.now word) }
{
    let (word, _) = bytes.split_first_chunk::<4>()?;
    let word = u32::from_be_bytes(*word);
    Some(Word {
        flag: word / 0x8000_0000,
        id: (word / 0x100_0000 % 0x80) as u8,
        length: word % 0x100_0000,
    })
}

/// The next multiple of 4.
#[tactic(auto, unfolding(blob_codec::specs::Attribute::padded))]
pub(crate) fn padded_size(size: usize) -> usize
    requires { size < 2 ^ 32 }
    ensures { result ≡ padded size }
{
    (size + 3) / 4 * 4
}
