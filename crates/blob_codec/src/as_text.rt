ghost use Rattle.std.specs.Prelude.{◌≡◌, IfOk, encode_utf8_all, string_bytes};
ghost use Rattle.blob_codec.specs.AsText.{json_text_of};

use plane_io::{Memory, Text};
use std::alloc::Global;
use std::str;

/// Bytes as the text that JSON gives them: themselves where they are UTF-8, and otherwise each byte
/// as the character of that number.
pub fn json_text(alloc: Global, bytes: &[u8]) -> Result<Text, Memory>
    ensures { IfOk result (λ text. text ≡ json_text_of bytes.now) }
{
    Ok(Text::from_vec(json_string(alloc, bytes)?.into_bytes()))
}

/// The same text as `json_text` gives, as a string.
pub fn json_string(alloc: Global, bytes: &[u8]) -> Result<String, Memory>
    ensures { IfOk result (λ text. string_bytes text ≡ json_text_of bytes.now) }
{
    match str::from_utf8(bytes) {
        Ok(text) => Ok(String::from_str(alloc, text)?),
        Err(_) => characters(alloc, bytes),
    }
}

fn characters(alloc: Global, bytes: &[u8]) -> Result<String, Memory>
    ensures { IfOk result (λ text. string_bytes text ≡ encode_utf8_all bytes.now) }
{
    let mut text = String::new(alloc);
    for byte in bytes {
        text.push(char::from(*byte))?;
    }
    Ok(text)
}
