//! Words as paths, and as paths with values.
ghost use Rattle.std.specs.Prelude.{◌≡◌, Ok, Err, IfOk, MatchOption};
ghost use Rattle.uci_tool.specs.Answers.{Answers};
ghost use Rattle.uci_tool.specs.Paths as paths;
ghost use Rattle.uci_tool.specs.Staging as spec;
ghost use Rattle.uci_tool.specs.Texts.{path_word};

use crate::Stop;
use plane_io::{Memory, Text};
use std::alloc::Global;
use uci_cli::{Refusal, Verb};
use uci_tree::{Path, cut_first, read_path};

/// The path that a word is.
pub fn read_word(alloc: Global, word: &[u8]) -> Result<Path, Stop>
    ensures { Answers result (path_word word.now) }
{
    match find_path(alloc, word) {
        Ok(Some(path)) => Ok(path),
        Ok(None) => Err(Stop::Refused(Refusal::Invalid)),
        Err(_) => Err(Stop::Memory),
    }
}

/// The path that a text is, as it is computed.
#[tactic(auto, using(crate::proofs::PathLemmas::path_is, crate::proofs::PathLemmas::no_path))]
fn find_path(alloc: Global, text: &[u8]) -> Result<Option<Path>, Memory>
    ensures { IfOk result (λ found. found ≡ paths.path_in text.now) }
{
    match read_path(alloc, text) {
        Ok(Some(path)) => Ok(Some(path)),
        Ok(None) => Ok(None),
        Err(error) => Err(error),
    }
}

/// The path and the value of a word, as it is cut for this verb.
#[tactic(auto, using(crate::proofs::PathLemmas::cut_is, crate::proofs::PathLemmas::cut_none))]
pub fn cut_word(verb: Verb, word: &[u8]) -> Option<(&[u8], &[u8])>
    ensures { MatchOption result (spec.cut_word verb word.now ≡ Err Refusal.Invalid)
        (λ parts. spec.cut_word verb word.now ≡ Ok (parts.0.now, parts.1.now)) }
{
    match verb {
        Verb::Delete => Some((word, &[])),
        _ => cut_first(word, b'='),
    }
}
