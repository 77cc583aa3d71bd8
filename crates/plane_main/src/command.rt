ghost use Rattle.std.specs.Prelude.{◌≡◌, ◌∷◌, ℕ, List, map, codes, string_bytes, IfOk, OnErr};
ghost use Rattle.std.specs.Prelude.{IfSome, IfNone};
ghost use Rattle.plane_main.specs.Command.{AskFor, IsCommand, IsStart, IsGen, IsPageCommand};

use crate::page::Page;
use crate::run_words::{RunAsked, read_run};
use kern_model::{DevName, read_plain_name};
use plane_io::{Items, Memory, Text};
use script_lines::read_long_decimal;
use std::alloc::Global;
use std::collections::BTreeSet;

/// How many devices `start` takes at most.
pub const MOST_DEVICES: usize = 4096;

/// How many bridges `gen` makes at most.
pub const MOST_BRIDGES: u64 = 1000;

/// What the program is asked for.
#[derive(Drop)]
pub enum Command {
    /// Brings a network up on these devices.
    Start { devices: Items<DevName> },
    /// Carries OpenWrt's `uci` out with these words.
    Uci { words: Items<Text> },
    /// Carries a script out over a folder.
    Run { asked: RunAsked },
    /// Plays a network of so many bridges through.
    Gen { count: u32 },
    /// Prints a page about the program.
    Show(Page),
}

/// The command that the words ask for, or `None` where they are not in the table of commands. A
/// page takes no memory.
pub fn read_command(alloc: Global, words: &[String]) -> Result<Option<Command>, Memory>
    ensures found { IfOk result (λ found.
        IfSome found (λ command. AskFor (map string_bytes words.now) command)) }
    ensures none { IfOk result (λ found.
        IfNone found (IsCommand (map string_bytes words.now) → ⊥)) }
    ensures memory { OnErr result (IsPageCommand (map string_bytes words.now) → ⊥) }
{
    if let Some(page) = Page::read(words) {
        return Ok(Some(Command::Show(page)));
    }
    if let Some(words) = uci_words(alloc, words)? {
        return Ok(Some(Command::Uci {
            words: Items::from_vec(words),
        }));
    }
    if let Some(asked) = read_run(alloc, words)? {
        return Ok(Some(Command::Run { asked }));
    }
    if let Some(count) = bridges(words) {
        return Ok(Some(Command::Gen { count }));
    }
    let Some(names) = start_devices(alloc, words)? else {
        return Ok(None);
    };
    Ok(Some(Command::Start {
        devices: Items::from_vec(names),
    }))
}

// The words of `uci`, without that word itself.
fn uci_words(alloc: Global, words: &[String]) -> Result<Option<Vec<Text>>, Memory>
    ensures found { IfOk result (λ found. IfSome found (λ rest.
        map string_bytes words.now ≡ codes "uci" ∷ rest.items)) }
    ensures none { IfOk result (λ found. IfNone found ((rest : List (List ℕ)) →
        map string_bytes words.now ≡ codes "uci" ∷ rest → ⊥)) }
{
    let Some((command, rest)) = words.split_first() else {
        return Ok(None);
    };
    if command.as_bytes() != b"uci".as_slice() {
        return Ok(None);
    }
    let mut texts = Vec::new(alloc);
    for word in rest {
        texts.push(Text::from_bytes(alloc, word.as_bytes())?)?;
    }
    Ok(Some(texts))
}

// The number of bridges of a `gen`.
fn bridges(words: &[String]) -> Option<u32>
    ensures found { IfSome result (λ count. IsGen (map string_bytes words.now) count) }
    ensures none { IfNone result ((count : ℕ) → IsGen (map string_bytes words.now) count → ⊥) }
{
    let [command, digits] = words else {
        return None;
    };
    if command.as_bytes() != b"gen".as_slice() {
        return None;
    }
    let Some(count) = read_long_decimal(digits.as_bytes()) else {
        return None;
    };
    if count == 0 || count > MOST_BRIDGES {
        return None;
    }
    Some(count as u32)
}

// The devices of a `start`.
fn start_devices(alloc: Global, words: &[String]) -> Result<Option<Vec<DevName>>, Memory>
    ensures found { IfOk result (λ found.
        IfSome found (λ names. IsStart (map string_bytes words.now) names.items)) }
    ensures none { IfOk result (λ found.
        IfNone found ((names : List (List ℕ)) → IsStart (map string_bytes words.now) names → ⊥)) }
{
    let Some((command, rest)) = words.split_first() else {
        return Ok(None);
    };
    if command.as_bytes() != b"start".as_slice() || rest.is_empty() || rest.len() > MOST_DEVICES {
        return Ok(None);
    }
    let mut names = Vec::new(alloc);
    let mut seen = BTreeSet::new(alloc);
    for word in rest {
        let Some(name) = read_plain_name(word.as_bytes()) else {
            return Ok(None);
        };
        if !seen.insert(name)? {
            return Ok(None);
        }
        names.push(name)?;
    }
    Ok(Some(names))
}
