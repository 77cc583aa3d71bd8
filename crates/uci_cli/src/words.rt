ghost use Rattle.std.specs.Prelude.{◌≡◌, IfOk, None};
ghost use Rattle.uci_cli.specs.Words.{asked_of};

use crate::command::read_command;
use crate::{Command, Field, Flag, Options};
use plane_io::{Memory, Text};
use std::alloc::Global;

/// What the words of `uci` ask for.
#[derive(Drop)]
pub struct Asked {
    /// The options, up to the first word that is none.
    pub options: Options,
    /// The command, where the words are in the table of commands.
    pub command: Option<Command>,
}

/// Reads the words of `uci`, without that word itself: options, and then a command.
///
/// # Errors
///
/// Want of memory.
#[tactic(auto, using(crate::proofs::WordLemmas::word_steps))]
pub fn read_words(alloc: Global, words: &[Text]) -> Result<Asked, Memory>
    ensures { IfOk result (λ asked. asked ≡ asked_of words.now) }
{
    let mut options = Options::usual(alloc)?;
    let mut rest = words;
    while let Some((word, behind)) = rest.split_first() {
        if let Some(flag) = Flag::of(word.as_bytes()) {
            options.set(flag);
            rest = behind;
            continue;
        }
        let Some(field) = Field::of(word.as_bytes()) else {
            let command = read_command(rest)?;
            return Ok(Asked { options, command });
        };
        let Some((value, behind)) = behind.split_first() else {
            return Ok(unasked(options));
        };
        options.put(field, value.copy()?);
        rest = behind;
    }
    Ok(unasked(options))
}

fn unasked(options: Options) -> Asked
    ensures { result ≡ record { options = options; command = None } }
{
    Asked {
        options,
        command: None,
    }
}
