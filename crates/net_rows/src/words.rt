ghost use Rattle.std.specs.Prelude.{◌≡◌, IfOk, OnOk, ◌++◌, ◌∷◌, []};
ghost use Rattle.std.specs.List.{flat_map};
ghost use Rattle.net_rows.specs.Words as spec;

use crate::cut::cut_first;
use plane_io::{Items, Memory, Text};
use std::alloc::Global;
use uci_tree::Value;

/// The items of a list, or the words of a text, which are what stands between its spaces.
pub fn item_words(alloc: Global, value: &Value) -> Result<Items<Text>, Memory>
    ensures { IfOk result (λ words. words ≡ spec.item_words value.now) }
{
    match value {
        Value::One(text) => text_words(alloc, text.as_bytes()),
        Value::Many(items) => copy_texts(alloc, items.as_slice()),
    }
}

/// The words of a text, or of all items of a list.
pub fn words_of(alloc: Global, value: &Value) -> Result<Items<Text>, Memory>
    ensures { IfOk result (λ words. words ≡ spec.words_of value.now) }
{
    match value {
        Value::One(text) => text_words(alloc, text.as_bytes()),
        Value::Many(items) => words_in_all(alloc, items.as_slice()),
    }
}

fn text_words(alloc: Global, text: &[u8]) -> Result<Items<Text>, Memory>
    ensures { IfOk result (λ words. words ≡ spec.words text.now) }
{
    let mut words = Items::new(alloc);
    push_words(alloc, &mut words, text)?;
    Ok(words)
}

fn copy_texts(alloc: Global, texts: &[Text]) -> Result<Items<Text>, Memory>
    ensures { IfOk result (λ copies. copies ≡ texts.now) }
{
    let mut copies = Items::new(alloc);
    for text in texts {
        copies.push(text.copy()?)?;
    }
    Ok(copies)
}

fn words_in_all(alloc: Global, texts: &[Text]) -> Result<Items<Text>, Memory>
    ensures { IfOk result (λ words. words ≡ flat_map spec.words texts.now) }
{
    let mut words = Items::new(alloc);
    for text in texts {
        push_words(alloc, &mut words, text.as_bytes())?;
    }
    Ok(words)
}

fn push_words(alloc: Global, words: &mut Items<Text>, text: &[u8]) -> Result<(), Memory>
    ensures { OnOk result (words.new ≡ words.old ++ spec.words text.now) }
{
    let mut rest = text;
    while let Some((word, behind)) = cut_first(rest, b' ') {
        push_word(alloc, words, word)?;
        rest = behind;
    }
    push_word(alloc, words, rest)
}

// Adds what stands between two spaces, where it is not empty.
fn push_word(alloc: Global, words: &mut Items<Text>, part: &[u8]) -> Result<(), Memory>
    ensures { OnOk result (words.new ≡ words.old ++ spec.kept (part.now ∷ [])) }
{
    if part.is_empty() {
        return Ok(());
    }
    words.push(Text::from_bytes(alloc, part)?)?;
    Ok(())
}
