ghost use Rattle.std.specs.Prelude.{◌≡◌, ◌<◌, ◌≤◌, List, ℕ, [], length, IfOk, Err};
ghost use Rattle.uci_text.specs.declared.text_error.TextError.{TextError};
ghost use Rattle.uci_text.specs.Table as table;
ghost use Rattle.uci_text.specs.Table.{IsCount, IsKind, IsCmd, HasWordsFault};

use crate::keyword::Keyword;
use crate::{Cmd, Line, TextError};
use plane_io::{Items, Text};
use std::alloc::Global;

/// The word at this place, and an empty one where there is none.
fn word_at(words: &[Text], place: usize) -> &[u8]
    ensures { result.now ≡ table.word_at words.now place }
{
    match words.get(place) {
        Some(word) => word.as_bytes(),
        None => &[],
    }
}

/// The kind of command that the words on this line are.
fn kind_of(line: u32, words: &[Text]) -> Result<Keyword, TextError>
    ensures found { IfOk result (λ keyword. IsKind keyword words.now) }
    ensures refused { (error : TextError) → result ≡ Err error →
        HasWordsFault line words.now error }
{
    let Some(keyword) = Keyword::of(word_at(words, 0)) else {
        return Err(TextError::UnknownCommand { line });
    };
    if !keyword.takes(words.len()) {
        return Err(TextError::ArgumentCount { line });
    }
    if !keyword.allows(word_at(words, 1), word_at(words, 2)) {
        return Err(TextError::BadName { line });
    }
    Ok(keyword)
}

/// The two arguments of a command, of which the second may be missing: it is empty then.
fn arguments(alloc: Global, words: Items<Text>) -> (Text, Text)
    requires some { 1 < length words }
    requires few { length words ≤ 3 }
    ensures first { result.0 ≡ table.word_at words 1 }
    ensures second { result.1 ≡ table.word_at words 2 }
{
    let mut words = words.into_vec();
    let second = if words.len() > 2 { words.pop() } else { None };
    let Some(first) = words.pop() else {
        unreachable!()
    };
    (first, second.unwrap_or(Text::from_vec(Vec::new(alloc))))
}

fn section_name(name: Text) -> Option<Text>
    ensures { result ≡ table.section_name name }
{
    if name.as_bytes().is_empty() {
        None
    } else {
        Some(name)
    }
}

/// The command that the words of the line are.
pub fn command_of(alloc: Global, line: Line) -> Result<Cmd, TextError>
    ensures found { IfOk result (λ cmd. IsCmd line.line line.words cmd) }
    ensures refused { (error : TextError) → result ≡ Err error →
        HasWordsFault line.line line.words error }
{
    let Line { line, words } = line;
    let keyword = kind_of(line, words.as_slice())?;
    let (first, second) = arguments(alloc, words);
    Ok(command_with(keyword, line, first, second))
}

fn command_with(keyword: Keyword, line: u32, first: Text, second: Text) -> Cmd
    ensures { result ≡ table.cmd_of keyword line first second }
{
    match keyword {
        Keyword::Package => Cmd::Package { line, name: first },
        Keyword::Config => Cmd::Config {
            line,
            kind: first,
            name: section_name(second),
        },
        Keyword::Item => Cmd::Item {
            line,
            name: first,
            value: second,
        },
        Keyword::ListItem => Cmd::ListItem {
            line,
            name: first,
            value: second,
        },
    }
}
