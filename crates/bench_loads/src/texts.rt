//! `texts commands|sections`: reads UCI text from the standard input, and gives how many commands
//! it has, or as a package how many sections.
ghost use Rattle.std.specs.Prelude.{◌<◌, ◌-◌, ◌^◌, length};

use plane_io::read_to_end;
use plane_real::StdSource;
use std::alloc::Global;
use std::mem;
use uci_text::read_commands;
use uci_tree::{TreeError, read_package};

/// How many bytes a text may have.
const LIMIT: u64 = 1 << 30;

/// What is counted in a text.
#[derive(Clone, Copy)]
enum Part {
    Commands,
    Sections,
}

impl Part {
    fn of(word: &str) -> Option<Part> {
        match word {
            "commands" => Some(Part::Commands),
            "sections" => Some(Part::Sections),
            _ => None,
        }
    }

    /// How many of these the text has.
    fn count(self, alloc: Global, text: &[u8]) -> Result<usize, TreeError>
        requires { length text.now < 2 ^ 32 - 1 }
    {
        match self {
            Part::Commands => {
                let commands = read_commands(alloc, text)?;
                let count = commands.as_slice().len();
                // The program ends now: what it holds need not be given back piece by piece.
                mem::forget(commands);
                Ok(count)
            }
            Part::Sections => Ok(
                read_package(alloc, b"network", text)?
                    .sections
                    .as_slice()
                    .len(),
            ),
        }
    }
}

/// Carries these words out.
pub(crate) fn run(rt: &HostRuntime, words: &[&str]) -> anyhow::Result<Option<String>> {
    let alloc = rt.alloc();
    let [word] = words else {
        return Ok(None);
    };
    let Some(part) = Part::of(word) else {
        return Ok(None);
    };
    let text = read_to_end(alloc, &mut StdSource::new(rt.stdin()), LIMIT)?;
    let count = part.count(alloc, text.as_slice())?;
    Ok(Some(format!(in alloc; "{count}")?))
}
